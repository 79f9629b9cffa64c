//! Reads an Intel update file that comes in pieces: its updates, one after another, or the first fault. Of the file
//! it keeps no bytes but those that are short of a header, of a word of data, or of the head or an entry of a table.
#![tactic(auto)]

mod file;
mod progress;
mod stream;
mod walk;

pub use file::{IntelUpdate, read_intel};
pub use stream::IntelStream;
pub use walk::{Ended, IntelWalk, Took, What};
