//! What is kept of update files: a small row of facts for each entry, and no byte of a file.
//!
//! A file may come in pieces, and it does not matter how it was cut: what a `FileReader` knows is a relation on all
//! bytes that came. Of an Intel file it keeps a row for each update and the pairs of their tables; of an AMD file a row
//! for each patch, and of the table of a container that has a patch an index, which is made once. `specs/` says which
//! entries rows stand for.
#![tactic(auto)]

mod file_reader;
mod gathered;
mod patch_reader;
mod patch_walk;
mod patches;
mod rows;
mod update_reader;
mod update_walk;
mod updates;

pub use file_reader::FileReader;
pub use patches::{PatchRow, PatchRows};
pub use rows::FileRows;
pub use updates::{UpdateRow, UpdateRows};
