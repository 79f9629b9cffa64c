//! Reads the extended signature table of an Intel microcode update: the further signatures and processor flags that the
//! update is for, or the first fault of the table; also where its entries come one after another.
#![tactic(auto)]

mod fault;
mod so_far;
mod table;

pub use fault::ExtFault;
pub use so_far::{TableSoFar, begin_table};
pub use table::{ExtTable, read_table};
