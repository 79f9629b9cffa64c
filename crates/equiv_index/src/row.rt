//! A row with its number.

/// A row of a table: a processor's signature, and the id of the patches that are for it.
#[derive(Clone, Copy, Debug)]
pub struct Row {
    pub sig: u32,
    /// The number of the row in its table, from 0 on.
    pub number: u32,
    pub id: u16,
}
