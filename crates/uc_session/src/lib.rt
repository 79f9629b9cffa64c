//! A session on a simulated machine: one command after another, each answered, written and done as `session_steps`
//! says.
//!
//! The session is written over any rendezvous, any files and any sink. `verdict` is what a load makes of an outcome.
#![tactic(auto)]

mod acted;
mod boots;
mod loads;
mod plain;
mod playing;
mod rooms;
mod running;
mod sessions;
mod setting_out;
mod verdicts;

pub use running::run_session;
pub use sessions::Session;
pub use verdicts::verdict;
