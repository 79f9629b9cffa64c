//! The simulated machine, defined: power, soft offline threads, suspend and resume, and what a thread that comes up
//! does with its group's patch. It is this project's own, after the hotplug calls of Linux 6.7 in
//! arch/x86/kernel/cpu/microcode/core.c (`mc_cpu_online`, `mc_bp_resume`): a group has one revision, which falls only
//! by power-down, and the first of its threads that comes up since power-up writes.
//!
//! The crate has the plain types that contracts speak of, and in `specs/` the definitions over them:
//!
//! - `Hardware`: what the machine is made of, and the state that it is in, as functions of thread and group numbers.
//! - `Calls`: each call of the machine, its refusals in their order and then its change.
//! - `BringUps`: what a thread that comes up writes, and what several do one after the other.
//! - `Puts`: where the patches of a boot or a load are put, and which of them stay.
//! - `Laws`: which calls let a revision fall, and what a refusal leaves.
//!
//! Its code tells what a thread's state is, and decides nothing.
#![tactic(auto)]

mod answers;
mod bring_ups;
mod laws;
mod states;

pub use answers::HotAnswer;
pub use bring_ups::{BringUp, Written};
pub use laws::{a_refusal_changes_nothing, only_suspend_lets_a_revision_fall};
pub use states::{Power, ThreadState};
