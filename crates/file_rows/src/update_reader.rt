//! An Intel file that comes in pieces, and the rows of its updates.
ghost use Rattle.std.specs.Prelude.{◌≤◌, length};
ghost use Rattle.uc_bytes.specs.declared.TheConstants.{FILE_LIMIT};

use crate::update_walk::walk_piece;
use crate::updates::UpdateRows;
use intel_file::IntelWalk;
use std::alloc::Global;
use uc_bytes::{FileAnswer, FileFault};

/// A file of which pieces came, without a fault that no further bytes undo.
#[derive(Debug, Drop)]
pub struct UpdateReader {
    walk: IntelWalk,
    rows: UpdateRows,
    /// How many bytes came.
    fed: usize,
    ghost few: { length rows.pairs.items ≤ fed },
    ghost within: { fed ≤ FILE_LIMIT },
}

impl UpdateReader {
    ghost use Rattle.std.specs.Prelude.{◌≡◌, ◌+◌, ℕ, List, [], IfOk};
    ghost use Rattle.file_rows.specs.UpdateReading.{Reads, IsFed, IsFinished};

    /// A reader to which nothing came.
    pub fn new(alloc: Global) -> UpdateReader
        ensures reads { Reads [] result }
        ensures fed { result.fed ≡ 0 }
    {
        UpdateReader {
            walk: IntelWalk::new(),
            rows: UpdateRows::new(alloc),
            fed: 0,
        }
    }

    /// How many bytes came.
    pub fn fed(&self) -> usize
        ensures { result ≡ self.now.fed }
    {
        self.fed
    }

    /// Takes the next bytes of the file, which has at most 67,108,864. A fault is the file's whatever follows; without
    /// memory all is as before.
    pub fn feed(&mut self, piece: &[u8]) -> Result<(), FileAnswer>
        requires { self.old.fed + length piece.now ≤ FILE_LIMIT }
        ensures fed { self.new.fed ≤ self.old.fed + length piece.now }
        ensures reads { (bytes : List ℕ) → Reads bytes self.old → IsFed bytes piece.now self.new result }
    {
        let before = self.walk.copy();
        let rows = self.rows.rows.len();
        let pairs = self.rows.pairs.len();
        match walk_piece(&mut self.walk, &mut self.rows, piece) {
            Ok(found) => {
                self.fed += piece.len();
                match found {
                    None => Ok(()),
                    Some(fault) => Err(FileAnswer::Fault(fault)),
                }
            }
            Err(answer) => {
                self.walk = before;
                self.rows.rows.truncate(rows);
                self.rows.pairs.truncate(pairs);
                Err(answer)
            }
        }
    }

    /// The rows of the file, of which no more bytes come, or its fault.
    pub fn finish(self) -> Result<UpdateRows, FileFault>
        ensures finished { (bytes : List ℕ) → Reads bytes self → IsFinished bytes result }
        ensures few { IfOk result (λ kept. length kept.pairs.items ≤ FILE_LIMIT) }
    {
        match self.walk.end() {
            Some(fault) => Err(fault),
            None => Ok(self.rows),
        }
    }
}
