//! What a rendezvous is to those who call one, whether it is simulated or runs in threads.
//!
//! - `Rendezvous` is the trait that a session is written over. Its contract is `Ran` of `rendezvous_rule`, and its two
//!   laws say that every sound plan has a run and that no revision falls in one.
//! - `Outcome` is what is left of a run, and `RunAnswer` why one came to none.
//!
//! `specs/Runs` has what a call that runs a rendezvous came to, `specs/Outcomes` an outcome as lists, and `specs/Ends`
//! how the words show that a thread came out.
#![tactic(auto)]

mod outcomes;
mod runs;

pub use ctl_words::Plan;
pub use outcomes::Outcome;
pub use rendezvous_steps::{Beat, End, ThreadResult};
pub use runs::{Rendezvous, RunAnswer};
