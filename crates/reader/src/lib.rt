// The reader: it is set to a code and a radius, loaded with cells, and hands out every word within the radius, one call after the other.

#![tactic(auto)]

mod calls;
mod state;

pub use state::Reader;
