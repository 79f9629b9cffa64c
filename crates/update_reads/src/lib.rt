//! The reading of update files for every command: one after another into a catalogue, up to the first that cannot be read
//! or is refused.
#![tactic(auto)]

mod answers;
mod pieces;
mod reading;

pub use answers::{FilesAnswer, UpdateAnswer};
pub use pieces::PIECE;
pub use reading::{read_files, read_update};
