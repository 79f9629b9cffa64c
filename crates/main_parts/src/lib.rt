//! What the mains of the programs share: the words of a command line, and what is said on standard error.
#![tactic(auto)]

mod arguments;
mod remarks;

pub use arguments::words;
pub use remarks::Speaker;
