//! The simulated machine: power, its threads, which groups refuse a write, and the revision of each group.
//!
//! What a call refuses, and in which order, and what it changes stand in `machine_steps`: a contract says that a call
//! answers by its row there. `specs/Machine` says what a machine's tables stand for. No call takes memory.
#![tactic(auto)]

mod machine;
mod tables;

pub use machine::Machine;
pub use machine_steps::{HotAnswer, Power, ThreadState};
