//! What is kept of the updates of an Intel file.
ghost use Rattle.std.specs.Prelude.{◌≡◌, []};
ghost use Rattle.file_rows.specs.UpdateRows.{row_of_ended, facts_of_update};

use entry_model::EntryFacts;
use intel_file::Ended;
use intel_format::IntelHeader;
use std::alloc::Global;
use uc_bytes::Vendor;

/// An update.
#[derive(Clone, Copy, Debug)]
pub struct UpdateRow {
    /// Where it begins, in bytes from its file's begin.
    pub start: u32,
    /// Its length in bytes.
    pub len: u32,
    pub rev: u32,
    pub date: u32,
    pub min: u32,
    pub sig: u32,
    pub flags: u32,
    /// How many pairs stand before those of its table.
    pub pairs_at: u32,
    /// How many pairs its table has.
    pub pairs: u32,
}

/// The updates of a file. The pairs of their tables, signatures and processor flags, stand one after another.
#[derive(Debug, Drop)]
pub struct UpdateRows {
    pub rows: Vec<UpdateRow>,
    pub pairs: Vec<(u32, u32)>,
}

impl UpdateRows {
    /// No updates.
    pub fn new(alloc: Global) -> UpdateRows
        ensures rows { result.rows.items ≡ [] }
        ensures pairs { result.pairs.items ≡ [] }
    {
        UpdateRows {
            rows: Vec::new(alloc),
            pairs: Vec::new(alloc),
        }
    }
}

impl UpdateRow {
    /// The row of an update that came whole, before whose pairs so many stand.
    pub(crate) fn new(header: &IntelHeader, ended: Ended, pairs_at: u32) -> UpdateRow
        ensures { result ≡ row_of_ended header.now ended pairs_at }
    {
        UpdateRow {
            start: ended.start,
            len: ended.len,
            rev: header.rev,
            date: header.date,
            min: header.min,
            sig: header.sig,
            flags: header.flags,
            pairs_at,
            pairs: ended.pairs,
        }
    }

    /// The facts of the update, in the file with this number.
    pub fn facts(&self, file: u32) -> EntryFacts
        ensures { result ≡ facts_of_update file self.now }
    {
        EntryFacts {
            file,
            start: u64::from(self.start),
            len: u64::from(self.len),
            vendor: Vendor::Intel,
            rev: self.rev,
            date: self.date,
            min: self.min,
            sig: self.sig,
            flags: self.flags,
            id: 0,
            family: 0,
        }
    }
}
