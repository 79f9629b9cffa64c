//! Generated input: an Intel update file, an AMD update file, a topology of 256 threads and a script for it, each made
//! from one number; and a sink that keeps of what is written only how many lines it has and how it ends.
//!
//! `specs/Draws` says which numbers a number draws: a linear congruential generator with the multiplier and the
//! increment of D. E. Knuth's MMIX. `specs/Bundle`, `specs/Containers` and `specs/Texts` say what is made of them, as
//! functions of the number alone, and `specs/Tally` what the sink stands for.
#![tactic(auto)]

mod bundle;
mod containers;
mod draws;
mod pushing;
mod tally;
mod texts;

pub use bundle::make_intel;
pub use containers::make_amd;
pub use tally::TallySink;
pub use texts::{make_script, make_topology};
