//! What is kept of the patches of an AMD file.
ghost use Rattle.std.specs.Prelude.{◌≡◌, ◌^◌, ◌<◌};
ghost use Rattle.file_rows.specs.PatchRows.{row_of_told, facts_of_patch};

use amd_file::{AmdPatch, patch_family};
use entry_model::EntryFacts;
use equiv_index::RowIndex;
use uc_bytes::Vendor;

/// A patch.
#[derive(Clone, Copy, Debug)]
pub struct PatchRow {
    /// Where it begins, in bytes from its file's begin.
    pub start: u32,
    /// Its length in bytes.
    pub len: u32,
    pub rev: u32,
    pub id: u16,
    /// The number of the index of its container's table.
    pub table: usize,
}

/// The patches of a file, and the indexes of the tables of its containers that have one.
#[derive(Debug, Drop)]
pub struct PatchRows {
    pub rows: Vec<PatchRow>,
    pub tables: Vec<RowIndex>,
}

impl PatchRow {
    /// The row of a patch, the index of whose container's table has this number.
    pub(crate) fn new(patch: &AmdPatch, table: usize) -> PatchRow
        requires start { patch.now.start < 2 ^ 32 }
        requires len { patch.now.len < 2 ^ 32 }
        ensures { result ≡ row_of_told table patch.now }
    {
        PatchRow {
            start: patch.start as u32,
            len: patch.len as u32,
            rev: patch.rev,
            id: patch.id,
            table,
        }
    }

    /// The facts of the patch, in the file with this number.
    pub fn facts(&self, file: u32) -> EntryFacts
        ensures { result ≡ facts_of_patch file self.now }
    {
        EntryFacts {
            file,
            start: u64::from(self.start),
            len: u64::from(self.len),
            vendor: Vendor::Amd,
            rev: self.rev,
            date: 0,
            min: 0,
            sig: 0,
            flags: 0,
            id: self.id,
            family: patch_family(self.id),
        }
    }
}
