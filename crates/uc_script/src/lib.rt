//! The reader of scripts: the commands of a session and the schedules of its loads, as a text states them.
//!
//! A text is read once, line by line. What it states, and where it first goes wrong, is defined in `script_text`,
//! and so is the line on one that is refused.
#![tactic(auto)]

mod answer;
mod beats;
mod draft;
mod forms;
mod names;
mod numbers;
mod reading;
mod refusal;
mod rest;
mod shorts;

pub use answer::ScriptAnswer;
pub use reading::read_script;
pub use refusal::put_script_fault;
