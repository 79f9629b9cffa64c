use equiv_index::RowIndex;
use file_rows::{PatchRow, UpdateRow};

/// An entry that was looked up, with the number of its file.
#[derive(Clone, Copy, Debug)]
pub enum Found<'a> {
    /// An update, and the pairs of its table.
    Update(u32, &'a UpdateRow, &'a [(u32, u32)]),
    /// A patch, and the index of its container's table.
    Patch(u32, &'a PatchRow, &'a RowIndex),
}
