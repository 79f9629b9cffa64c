//! Reads AMD update files: the containers of a file, one after another, each with its patches, or the first fault.
//!
//! A file may come in pieces, and it does not matter how it was cut. `AmdParser` goes over its bytes a unit at a time
//! and takes no memory; it tells the containers' heads, the rows of their tables, and the patches. `AmdStream` lists
//! the patches that it tells, and `read_amd` is a stream that is fed once. A container without patches is not listed,
//! so that it takes no room.
#![tactic(auto)]

mod container;
mod cut;
mod family;
mod file;
mod listing;
mod parser;
mod part;
mod progress;
mod stream;
mod unit;

pub use container::{AmdContainer, AmdPatch, Patches};
pub use family::{patch_family, sig_family};
pub use file::read_amd;
pub use parser::AmdParser;
pub use part::{AmdHead, AmdPart, Taken};
pub use stream::AmdStream;
