//! A catalogue of update files: it tells which entries they have and what each is for, and keeps the files' bytes or
//! none.
//!
//! A contract sees each file's vendor and number of entries, the list of all entries (`Contents`), and the file that is
//! being read. What the entries of files are stands in `entry_model`. The catalogue keeps the rows of `file_rows`: facts
//! of each entry, the pairs of all updates' tables, and of the table of a container that has a patch an index of its
//! rows, which is made once, so that no call passes over a table: a table may have millions of rows. A file is added
//! whole, or in pieces by `Catalog::feed` and `Catalog::end_file`; nothing but these takes memory.
#![tactic(auto)]

mod catalog;
mod coming;
mod file;
mod found;
mod place;

pub use catalog::Catalog;
pub use entry_model::EntryFacts;
