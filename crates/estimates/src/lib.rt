// Estimates: what a word costs at least, by a prefix of its message.

#![tactic(auto)]

mod estimate;
mod greater;
mod plain;
mod two_kinds;

pub use either::Either;
pub use estimate::Estimate;
pub use greater::Greater;
pub use plain::Plain;
