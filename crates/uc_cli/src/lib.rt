//! The top call of the program `ucode`: it reads the command line, runs the command, and hands what is printed to a
//! sink.
//!
//! The program of live loads shares what this one does about a session: which word may name a file, the reading of a
//! topology and of a script, the line on what is refused, and how a run ends whose session came to an answer.
#![tactic(auto)]

mod generate;
mod list;
mod play;
mod reading;
mod refusal;
mod select;
mod show;
mod tool;
mod words;

pub use play::end_session;
pub use reading::{read_commands, read_machine};
pub use refusal::{Refusal, refuse};
pub use status_rule::Status;
pub use tool::run_tool;
pub use words::is_name;
