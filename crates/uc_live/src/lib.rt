//! A rendezvous by threads that really run: one worker a thread over the table of `ctl_table`.
//!
//! - `Gate` is told where each worker stands, so that a test can hold workers. `OpenGate` lets all go on.
//! - `LiveRun::hold` makes a bay, lets a worker step each post by a chain of joins, closes the bay, and keeps what it
//!   came to. `LiveRun` with an open gate is a `Rendezvous`. A type with another gate can be one by the same call: a
//!   trait's method itself cannot send a value of a type parameter to a thread.
//!
//! Nothing takes memory after the first step. What is proved of a run is what `ctl_table` says of its closed bay; that
//! workers get on, and side by side, is for tests.
#![tactic(auto)]

mod chains;
mod gates;
mod runs;
mod workers;

pub use gates::{Gate, OpenGate, Point};
pub use runs::LiveRun;
