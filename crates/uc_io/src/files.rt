ghost use Rattle.std.specs.Prelude.{◌≡◌, ◌≤◌, ℕ, List, []};
ghost use Rattle.uc_io.specs.Pieces.{IsOpened};
ghost use Rattle.uc_io.specs.Reading.{IsReadOf};
ghost use Rattle.uc_io.specs.declared.files.ReadAnswer.TheVariants.{Failed as FailedToRead, NoMemory as NoMemoryToRead};
ghost use Rattle.uc_io.specs.declared.files.OpenAnswer.TheVariants.{NoMemory as NoMemoryToOpen};

use crate::pieces::{PieceFailed, Pieces};
use std::alloc::{AllocError, Global};
use thiserror::Error;

/// Why a file was not read.
#[derive(Debug, Drop, Error)]
pub enum ReadAnswer {
    /// The file is not there, or a read of it failed. The count of faults has risen.
    #[error("the file cannot be read")]
    Failed,
    /// The file is longer than the limit; this many bytes of it were taken.
    #[error("the file is longer than allowed: {0} bytes were taken")]
    TooLong(u64),
    #[error("out of memory")]
    NoMemory,
}

impl From<AllocError> for ReadAnswer {
    ghost from_gives = { λ _ answer. answer ≡ NoMemoryToRead };

    fn from(_error: AllocError) -> ReadAnswer {
        ReadAnswer::NoMemory
    }
}

impl From<PieceFailed> for ReadAnswer {
    ghost from_gives = { λ _ answer. answer ≡ FailedToRead };

    fn from(_failed: PieceFailed) -> ReadAnswer {
        ReadAnswer::Failed
    }
}

/// Why a file was not opened.
#[derive(Debug, Drop, Error)]
pub enum OpenAnswer {
    /// The file is not there, or cannot be opened. The count of faults has risen.
    #[error("the file cannot be opened")]
    Failed,
    #[error("out of memory")]
    NoMemory,
}

impl From<AllocError> for OpenAnswer {
    ghost from_gives = { λ _ answer. answer ≡ NoMemoryToOpen };

    fn from(_error: AllocError) -> OpenAnswer {
        OpenAnswer::NoMemory
    }
}

/// Files that are read by name: whole, or opened and then taken piece by piece.
pub trait Files: Pieces {
    /// The bytes of the file of a name, where they are told.
    ghost holds: { Self → List ℕ → List ℕ };

    /// Reads the whole file of at most `limit` bytes. Nothing is left open.
    fn read(&mut self, alloc: Global, name: &str, limit: u64) -> Result<Vec<u8>, ReadAnswer>
        ensures answer { IsReadOf (Self.tells self.old) (holds self.old name.now) limit
            (Self.faults self.old) (Self.faults self.new) result }
        ensures same { holds self.new ≡ holds self.old }
        ensures still { Self.tells self.old → Self.tells self.new }
        ensures closed { Self.tells self.old → Self.left self.new ≡ [] }
        ensures later { Self.faults self.old ≤ Self.faults self.new };

    /// Opens a file, in the place of the one that was open. After a refusal nothing is open.
    fn open_file(&mut self, alloc: Global, name: &str) -> Result<(), OpenAnswer>
        ensures answer { IsOpened (Self.tells self.old) (holds self.old name.now) (Self.left self.new)
            (Self.faults self.old) (Self.faults self.new) result }
        ensures same { holds self.new ≡ holds self.old }
        ensures still { Self.tells self.old → Self.tells self.new }
        ensures later { Self.faults self.old ≤ Self.faults self.new };

    /// A piece that is taken changes what no file holds.
    ghost holds_stay: { (old new : Self) → Self.same_source old new → holds new ≡ holds old };
}
