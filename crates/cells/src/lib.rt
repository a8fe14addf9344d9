// Cells as they come back from the film: kinds of cell, their weights, and the cost of a word.

#![tactic(auto)]

mod bit;
mod cell;
mod costs;
mod pixel;
mod two_kinds;
mod weighing;

pub use bit::Bit;
pub use cell::Cell;
pub use costs::cost;
pub use either::Either;
pub use pixel::Pixel;
pub use weighing::{check_cells, weigh};
