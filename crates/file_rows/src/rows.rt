//! What is kept of a file of either vendor.
ghost use Rattle.std.specs.Prelude.{◌≡◌, ◌<◌, ◌≤◌};
ghost use Rattle.file_rows.specs.FileRows.{vendor_of, count_of, extent_of};

use crate::patches::PatchRows;
use crate::updates::UpdateRows;
use uc_bytes::Vendor;

/// The entries of a file.
#[derive(Debug, Drop)]
pub enum FileRows {
    Updates(UpdateRows),
    Patches(PatchRows),
}

impl FileRows {
    /// How many entries there are.
    pub fn count(&self) -> u32
        requires { count_of self.now ≤ 65536 }
        ensures { result ≡ count_of self.now }
    {
        match self {
            FileRows::Updates(kept) => kept.rows.len() as u32,
            FileRows::Patches(kept) => kept.rows.len() as u32,
        }
    }

    /// Where an entry begins in its file, and its length, in bytes.
    pub fn extent(&self, row: u32) -> (u32, u32)
        requires { row < count_of self.now }
        ensures { result ≡ extent_of self.now row }
    {
        match self {
            FileRows::Updates(kept) => {
                let update = &kept.rows[row as usize];
                (update.start, update.len)
            }
            FileRows::Patches(kept) => {
                let patch = &kept.rows[row as usize];
                (patch.start, patch.len)
            }
        }
    }

    pub fn vendor(&self) -> Vendor
        ensures { result ≡ vendor_of self.now }
    {
        match self {
            FileRows::Updates(_) => Vendor::Intel,
            FileRows::Patches(_) => Vendor::Amd,
        }
    }
}
