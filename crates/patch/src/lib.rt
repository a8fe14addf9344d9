// The patch file: reading it, and unpacking its cells.

#![tactic(auto)]

mod flaw;
mod header;
mod packing;
mod reading;
mod section;

pub use header::Header;
pub use packing::unpack;
pub use reading::{Patch, read_patch};
