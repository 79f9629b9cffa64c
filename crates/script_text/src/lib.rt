//! The text of a script, defined: the commands that a session runs, with the schedules of its loads.
//!
//! The crate has the plain types that contracts speak of, and in `specs/` the definitions over them: the forms of lines
//! (`Forms`), what a line states after those before it (`Stands`), the checks of a line in their order (`Checks`), what
//! a whole text states and where it first goes wrong (`Texts`), and what every script keeps to (`Within`). `Reading`
//! has the same as a computation. `Accepts` says which bytes are accepted as a script, and at which line and why others
//! are refused; `Lines` has the line on that. The grammar, its limits and the order of its checks are this project's
//! own.
#![tactic(auto)]

mod command;
mod fault;
mod forms;
mod laws;
mod script;

pub use command::{Beats, Command, Names, OpenLoad};
pub use fault::{ScriptCause, ScriptFault};
pub use forms::{BeatKind, Form, Limits, Place};
pub use laws::{each_text_reads_one_way, scripts_keep_to_their_limits};
pub use script::Script;

/// The greatest length of a script, in bytes.
pub const SCRIPT_LIMIT: u64 = 16_777_216;
