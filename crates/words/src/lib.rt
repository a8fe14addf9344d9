// Messages and words: the dimension of a code, encoding, and reading back.

#![tactic(auto)]

mod checks;
mod code;
mod encoding;
mod monomials;
mod polynomial;
mod reading;
mod refusals;
mod table;
mod variables;

pub use checks::{check_bytes, check_room};
pub use code::{Code, dimension};
pub use encoding::encode;
pub use reading::read_back;
pub use refusals::{Fault, Refusal};
pub use variables::Variables;
