//! One thread of a rendezvous: the operation that it does next, and what comes of it. Nothing here takes memory, and
//! no call waits. After Linux 6.7 arch/x86/kernel/cpu/microcode/core.c (`load_primary`, `load_secondary`).
//!
//! `opening`, `next` and `after` are the table of `rendezvous_steps`, row by row. A step that goes on to another thread
//! looks for it among all threads; `after_linked` does the same by tables of them, `Links`, in constant time. What the
//! table promises in the words of a load stands in `laws`, and what only a timeout does in `timeouts`.
#![tactic(auto)]

mod gathering;
pub mod laws;
mod links;
mod moves;
mod next_step;
mod outcome;
mod release;
mod searches;
pub mod timeouts;
mod turns;

pub use links::Links;
pub use next_step::{next, opening};
pub use outcome::{after, after_linked};
pub use rendezvous_steps::{How, Local, Phase, ThreadResult, What};
