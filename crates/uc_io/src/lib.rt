//! The outside of the program: files that are read by name and a sink that takes what is printed.
//!
//! Each is a trait whose ghost members say what it means, so that a contract above can speak of what a file holds and
//! of what was written. A failure of the outside shows in a count of faults that never falls, and a call answers one
//! only where that count rose in it. So a caller that gives up without a fault is refused by its proof.
#![tactic(auto)]

mod contents;
mod files;
mod gathering;
mod host_files;
mod lines;
mod memory_files;
mod memory_sink;
mod opened;
mod out_sink;
mod pieces;
mod reads;
mod sinks;
mod sure_files;

pub use files::{Files, OpenAnswer, ReadAnswer};
pub use host_files::{Failure, HostFiles};
pub use lines::write_line;
pub use memory_files::MemFiles;
pub use memory_sink::MemSink;
pub use out_sink::OutSink;
pub use pieces::{PieceFailed, Pieces};
pub use reads::read_some;
pub use sinks::{Sink, SinkFailed};
pub use sure_files::SureFiles;
