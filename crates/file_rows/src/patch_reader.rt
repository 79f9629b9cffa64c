//! An AMD file that comes in pieces, and the rows of its patches.
ghost use Rattle.std.specs.Prelude.{◌≤◌, length};
ghost use Rattle.uc_bytes.specs.declared.TheConstants.{FILE_LIMIT};
ghost use Rattle.amd_file.specs.Parser.{fed_of as parsed_of};

use crate::gathered::Gathered;
use crate::patch_walk::gather_piece;
use crate::patches::PatchRows;
use amd_file::AmdParser;
use std::alloc::Global;
use uc_bytes::{FileAnswer, FileFault, NoMemory};

/// A file of which pieces came, without a fault that no further bytes undo.
#[derive(Debug, Drop)]
pub struct PatchReader {
    parser: AmdParser,
    gathered: Gathered,
    ghost few_table: { length gathered.table.items ≤ parsed_of parser },
    ghost none_fresh: { length gathered.fresh.items ≤ 0 },
}

impl PatchReader {
    ghost use Rattle.std.specs.Prelude.{◌≡◌, ◌+◌, ℕ, List, []};
    ghost use Rattle.file_rows.specs.PatchReading.{Reads, IsFed, IsFinished, fed_of};

    /// A reader to which nothing came.
    pub fn new(alloc: Global) -> PatchReader
        ensures reads { Reads [] result }
        ensures fed { fed_of result ≡ 0 }
    {
        PatchReader {
            parser: AmdParser::new(),
            gathered: Gathered::new(alloc),
        }
    }

    /// How many bytes came.
    pub fn fed(&self) -> usize
        ensures { result ≡ fed_of self.now }
    {
        self.parser.fed()
    }

    /// Takes the next bytes of the file, which has at most 67,108,864. A fault is the file's whatever follows; without
    /// memory all is as before.
    pub fn feed(&mut self, piece: &[u8]) -> Result<(), FileAnswer>
        requires { fed_of self.old + length piece.now ≤ FILE_LIMIT }
        ensures fed { fed_of self.new ≤ fed_of self.old + length piece.now }
        ensures reads { (bytes : List ℕ) → Reads bytes self.old → IsFed bytes piece.now self.new result }
    {
        let before = self.parser.copy();
        let mark = self.gathered.mark();
        match gather_piece(&mut self.parser, &mut self.gathered, piece) {
            Ok(()) => {
                self.gathered.settle();
                match self.parser.settled() {
                    Some(fault) => Err(FileAnswer::Fault(fault)),
                    None => Ok(()),
                }
            }
            Err(NoMemory) => {
                self.gathered.go_back(mark);
                self.parser = before;
                Err(FileAnswer::NoMemory)
            }
        }
    }

    /// The rows of the file, of which no more bytes come, or its fault.
    pub fn finish(self) -> Result<PatchRows, FileFault>
        ensures { (bytes : List ℕ) → Reads bytes self → IsFinished bytes result }
    {
        match self.parser.end() {
            Some(fault) => Err(fault),
            None => Ok(self.gathered.into_rows()),
        }
    }
}
