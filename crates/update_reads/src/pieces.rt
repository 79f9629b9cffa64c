//! The pieces of an open update file, which are fed to a catalogue.
ghost use Rattle.std.specs.Prelude.{◌≡◌, ◌+◌, ◌<◌, ◌≤◌, ◌++◌, ℕ, List, None, IfOk, length};
ghost use Rattle.uc_io.specs.Leaving.{LeavesFiles};
ghost use Rattle.uc_catalog.specs.Contents.{with_coming, fed_of, Comes};
ghost use Rattle.uc_bytes.specs.declared.TheConstants.{FILE_LIMIT as MOST};
ghost use Rattle.update_reads.specs.Fed.{HasCome, ArePiecesFed, IsUpdateEnded};

use crate::answers::UpdateAnswer;
use uc_bytes::{FILE_LIMIT, FileAnswer, FileCause, FileFault, NoMemory};
use uc_catalog::Catalog;
use uc_io::{Files, PieceFailed};

/// How many bytes a piece of a file has at most.
pub const PIECE: usize = 65_536;

/// Feeds a piece, unless the bytes before it have a fault that no further bytes undo; tells the fault that they have
/// with it.
fn feed_piece(
    catalog: &mut Catalog,
    fault: Option<FileFault>,
    piece: &[u8],
) -> Result<Option<FileFault>, NoMemory>
    requires { fed_of catalog.old + length piece.now ≤ MOST }
    ensures kept { catalog.new ≡ with_coming catalog.new.coming catalog.old }
    ensures fed { fed_of catalog.new ≤ fed_of catalog.old + length piece.now }
    ensures come { IfOk result (λ found. (bytes : List ℕ) → HasCome bytes fault catalog.old
        → HasCome (bytes ++ piece.now) found catalog.new) }
{
    if let Some(settled) = fault {
        return Ok(Some(settled));
    }
    match catalog.feed(piece) {
        Ok(()) => Ok(None),
        Err(FileAnswer::Fault(fault)) => Ok(Some(fault)),
        Err(FileAnswer::NoMemory) => Err(NoMemory),
    }
}

/// Takes the open file to its end or past its limit, also behind a fault that stays, and feeds it up to there. Each turn
/// takes at least one byte or is the last. The piece is lent: nothing is taken from what it holds.
pub fn feed_pieces<F: Files>(
    catalog: &mut Catalog,
    files: &mut F,
    piece: &mut [u8; PIECE],
) -> Result<(), UpdateAnswer>
    requires { catalog.old.coming ≡ None }
    ensures answer { ArePiecesFed (F.tells files.old) (F.left files.old) (F.faults files.old) (F.faults files.new)
        catalog.new result }
    ensures kept { catalog.new ≡ with_coming catalog.new.coming catalog.old }
    ensures leaves { LeavesFiles F.holds F.tells F.faults files.old files.new }
{
    let mut came = 0;
    let mut fault = None;
    'pieces: loop {
        let taken = match files.next(piece) {
            Ok(taken) => taken,
            Err(PieceFailed) => return Err(UpdateAnswer::ReadFault),
        };
        if taken == 0 {
            return match fault {
                Some(fault) => Err(UpdateAnswer::BadFile(fault)),
                None => Ok(()),
            };
        }
        came += taken as u64;
        if came > FILE_LIMIT {
            return Err(UpdateAnswer::BadFile(FileFault {
                offset: FILE_LIMIT,
                cause: FileCause::TooLong,
            }));
        }
        match feed_piece(catalog, fault, &piece[..taken]) {
            Ok(found) => fault = found,
            Err(NoMemory) => return Err(UpdateAnswer::NoMemory),
        }
    }
}

/// Adds the file that was fed, or tells why not. No file is being read then.
pub fn end_update(catalog: &mut Catalog) -> Result<(), UpdateAnswer>
    requires { length catalog.old.files < 16 }
    ensures { (bytes : List ℕ) → Comes bytes catalog.old → IsUpdateEnded bytes catalog.old catalog.new result }
{
    match catalog.end_file() {
        Ok(()) => Ok(()),
        Err(FileAnswer::Fault(fault)) => Err(UpdateAnswer::BadFile(fault)),
        Err(FileAnswer::NoMemory) => {
            catalog.drop_file();
            Err(UpdateAnswer::NoMemory)
        }
    }
}
