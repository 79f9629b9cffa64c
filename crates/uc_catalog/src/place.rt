//! The place of an entry among files.
ghost use Rattle.std.specs.Prelude.{◌<◌, ◌≤◌, All, length};
ghost use Rattle.file_rows.specs.FileRows.{count_of};
ghost use Rattle.uc_catalog.specs.Files.{entries_in, IsPlace};

use crate::file::KeptFile;

/// Where an entry stands.
#[derive(Clone, Copy, Debug)]
pub struct Place {
    /// The number of its file.
    pub file: u32,
    /// The number of its row there.
    pub row: u32,
}

/// The place of an entry of files, by its number among all.
pub fn place_of(files: &[KeptFile], entry: u32) -> Place
    requires few { length files.now ≤ 16 }
    requires counts { All (λ file. count_of file.rows ≤ 65536) files.now }
    requires within { entry < length (entries_in 0 files.now) }
    ensures { IsPlace files.now entry result }
{
    let mut row = entry;
    'files: for file in 0..files.len() {
        let count = files[file].rows.count();
        if row < count {
            return Place {
                file: file as u32,
                row,
            };
        }
        row -= count;
    }
    unreachable!()
}
