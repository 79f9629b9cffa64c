//! What the reading of files comes to, as definitions, and how long a topology may be.
//!
//! The definitions go by the bytes that were read, and not by what a name is said to hold: `specs/Reads` speaks of a list
//! of reads, each a name with the bytes that were read under it. So they serve files that tell nothing of what they hold,
//! as those of the host, and a name that is read twice may give different bytes. Where files tell what they hold, the
//! bytes of each read are those (`AreHeld`). `specs/Accepts` says which bytes are accepted as an update file or as a
//! topology, and why others are refused.
//!
//! The public functions are laws: each is the contract of a function that does nothing.
#![tactic(auto)]

mod laws;

pub use laws::{accepted_files_are_read, some_outcome};

/// The greatest length of a topology, in bytes.
pub const TOPOLOGY_LIMIT: u64 = 1_048_576;
