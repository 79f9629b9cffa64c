//! A session on the simulated machine, defined: which answer each command of a script has, what it writes, and what it
//! leaves. It is this project's own, after the late loading of Linux 6.7 in arch/x86/kernel/cpu/microcode/core.c.
//!
//! `specs/` has:
//!
//! - `State`: the machine, the region of patches and what each group caches; who takes part in a load.
//! - `Offers`: what a load offers each group, and the plan of its rendezvous.
//! - `Did`: what a command did. `Step`: each command's answers in their order, with what each does.
//! - `Session`: commands one after another, their text, and what the session answers.
//! - `Calls`: what the outside of a session means, and what a call finds and leaves.
//! - `Played`: what a call that runs one command came to, also where a write fails or memory runs out. `Whole`: the
//!   same of a call that runs all commands of a script.
#![tactic(auto)]

// What a session speaks of, passed on: a crate above may name it through this one.
pub use machine_steps;
pub use rendezvous_steps;
pub use script_text;
pub use session_text;
