//! What the program `ucode` writes, defined: the rule of its command line, and for each command the texts that it may
//! write, each with the status that it then ends with.
//!
//! The texts are made of the lines of `report_text`, and go by what was read (`read_model`), so they say the same of
//! files that tell nothing of what they hold. The definitions are in `specs/`: `Words` for the rule of the command
//! line, `Commands` and `Plays` for the texts of single commands, `Tool` for the whole program and for the runs that
//! come to their end. `Able` says which sessions can be done, `Ends` why one ends short or with a thread that halted,
//! and `Headline` what holds of whatever a text shows to be done.
#![tactic(auto)]

// What the tool's text speaks of, passed on: a crate above may name it through this one.
pub use command_laws;
pub use read_model;
pub use script_text;
pub use session_text;

/// How many update files a command takes at most.
pub const MOST_FILES: u32 = 16;
