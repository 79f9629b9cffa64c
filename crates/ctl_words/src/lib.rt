//! The plan of a load, and the control words that its threads share.
//!
//! A plan says which threads take part, in which groups, and what each group is offered. A set of words does one
//! operation at a time: `PlainWords` keeps them in plain lists, for a schedule that is run by one thread.
#![tactic(auto)]

mod laws;
mod plain;
mod plans;
mod shared;

pub use laws::tables_end;
pub use plain::PlainWords;
pub use plans::Plan;
pub use rendezvous_steps::{Kind, Op, Word};
pub use shared::Words;
