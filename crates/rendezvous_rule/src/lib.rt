//! What ties the control words and the threads' states of a rendezvous to its model. `specs/` has:
//!
//! - `Shown`: the state of the model that words and threads' states stand for, by way of `Facets` and `Awaited`.
//! - `View` and `Seen`: what others see of a thread in each phase, the state that these views make, and its words.
//! - `Knows`: what a thread knows in each phase, one row a phase.
//! - `Rule`: what holds of words and threads' states between any two steps.
//! - `Ran`: what a run as a whole comes to. `Runs`: the laws on whole runs.
#![tactic(auto)]
