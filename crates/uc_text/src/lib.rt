//! Texts of bytes: how numbers are printed and read, and the lines and words of a text. Nothing here takes memory.
#![tactic(auto)]

mod lines;
mod numbers;
mod print;

pub use lines::{Line, Lines, Marked, Words};
pub use numbers::number;
pub use print::{dec, hex8};
