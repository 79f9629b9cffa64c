//! The lines of a session, defined: the heading of a command, what a bring-up or a load shows, and the answer.
//!
//! A command's text begins with its heading and ends with its answer; between them stand the threads that came up, or
//! what a load offers, the items of its rendezvous and what they came to. Numbers are decimal, revisions `0x` and eight
//! hexadecimal digits. The crate has the plain types of answers, and in `specs/` the lines over them.
#![tactic(auto)]

mod answers;

pub use answers::{CommandAnswer, LoadAnswer, Played, SessionAnswer};
