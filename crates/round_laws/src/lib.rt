//! Laws of the rendezvous, proved of its definitions alone: that every step of every thread keeps the rule and is a
//! step of the model, and that an outcome has one verdict. Each law is the contract of a function that does nothing;
//! `specs/OneStep` states the law on one step, and `specs/Laws` the rest.
//!
//! The law is proved phase by phase, a file of `proofs/` for what is alike, and put together in `proofs/Law`.
#![tactic(auto)]

mod laws;

pub use laws::{each_step_keeps_the_rule, the_verdict_is_the_first_that_holds};
