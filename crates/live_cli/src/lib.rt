//! The top call of the program `ucode_live`: it reads the command line, a topology and a script, and runs the script's
//! commands, in whose loads the threads really run. What is printed is handed to a sink.
//!
//! - `run_live` takes any rendezvous. Which texts it may write is said in `specs/Texts`: those of a session, where the
//!   items of a load are not listed, with the rendezvous that the session had; what holds of each, in `specs/Headline`.
//! - `PromptOut` is standard output that hands on what each command wrote when it is answered.
#![tactic(auto)]

mod laws;
mod live;
mod prompt;
mod words;

pub use live::run_live;
pub use prompt::PromptOut;
pub use status_rule::Status;
