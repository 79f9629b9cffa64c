//! Reads the head and the equivalence table of an AMD container: which processor signatures have which id, the id that
//! patches go by, or the first fault of the head or table.
#![tactic(auto)]

mod fault;
mod table;

pub use fault::EquivFault;
pub use table::{AMD_MAGIC, EquivTable, read_equiv};
