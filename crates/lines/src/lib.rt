// The lines that a program prints, each written into a buffer by a call of its own.

#![tactic(auto)]

mod lines;
mod pieces;

pub use lines::{end_line, refused_line, roll_line, stop_line, word_line};
