//! The desk, defined: two administrators on one machine ask for reloads, take threads offline, bring them online and ask
//! for revisions, as in Linux 6.7 writes to `reload` and to `cpuN/online` of several processes do under one mutex.
//!
//! The crate has the plain types of calls, replies and entries, and in `specs/` the definitions over them:
//!
//! - `Run`: what each call replies and leaves, by the commands of a session, and what a history of entries leads to. There
//!   is one history, as if one thread had made all calls.
//! - `Lines`: the text of a history, and the status that goes with it.
#![tactic(auto)]

mod calls;

pub use calls::{DeskCall, DeskEntry, DeskReply};
