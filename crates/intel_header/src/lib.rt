//! Reads the header of an Intel microcode update: its words, its first fault, and the day of its date.
#![tactic(auto)]

mod date;
mod header;

pub use date::{date_of, day_of};
pub use header::{HeaderFault, read_header};
pub use intel_format::IntelHeader;
