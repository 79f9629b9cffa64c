//! The rendezvous of a late microcode load, defined: the words that the threads share, the operation that each thread
//! does next, and what comes of it. After Linux 6.7 arch/x86/kernel/cpu/microcode/core.c (`load_late_stop_cpus`,
//! `load_cpus_stopped`, `load_primary`, `load_secondary`): the threads count themselves in, each group's primary
//! writes while its siblings wait on control words of their own, and soft-offline siblings are kicked into the
//! handler and held there. Go or drop is decided by one exchange on one word, which is this project's own choice.
//!
//! The crate has the plain types that contracts speak of, and in `specs/` what the threads do:
//!
//! - `Plan`: what a load sets out with, as functions of thread and group numbers, and when a plan is sound. `Padded`:
//!   what a plan's tables hold past their end.
//! - `Words`: the control words, and what one operation leaves of them.
//! - `StepTable`: the operation of a thread in each phase, and the next phase and the item for each old value.
//! - `Events`: what an event of a schedule does.
//!
//! What a rendezvous is, with no word and no phase, says `rendezvous_model`; what holds of words and threads between
//! two steps says `rendezvous_rule`. The code here converts numbers and names, and decides nothing.
#![tactic(auto)]

mod ends;
mod items;
mod operations;
mod steps;

pub use ends::{Beat, End};
pub use items::{Event, Item, What};
pub use operations::{Op, Word};
pub use steps::{How, Kind, Local, Phase, ThreadResult};
