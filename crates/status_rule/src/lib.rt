//! What the top calls of the two programs promise in the same words: their statuses, what they wrote, and why they
//! ended as they did.
//!
//! A top call is told which texts it may write, each with its status. `specs/Written` says what then holds of the sink:
//! a whole text, or after a write fault or want of memory a front of one. `specs/Causes` says which statuses go with
//! which counts of faults.
#![tactic(auto)]

mod status;

pub use status::{Status, after_write};
