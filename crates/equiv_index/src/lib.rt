//! An index of the rows of an AMD container's equivalence table, so that a question about a table takes no pass over it.
//!
//! A table may have millions of rows, and many of them may have one signature or one id. The index is made once, in the
//! time of a sort, and then finds the id of a signature, or the next signature that an id is for, by a binary search.
#![tactic(auto)]

mod index;
mod row;
mod search;

pub use index::RowIndex;
