ghost use Rattle.std.specs.Prelude.{◌≡◌, ◌<◌, ◌≤◌, IfOk, length};
ghost use Rattle.uc_io.specs.Leaving.{LeavesFiles};
ghost use Rattle.uc_catalog.specs.Contents.{no_files};
ghost use Rattle.update_reads.specs.Reading.{IsUpdateRead, AreFilesRead};

use crate::answers::{FilesAnswer, UpdateAnswer};
use crate::pieces::{PIECE, end_update, feed_pieces};
use std::alloc::Global;
use uc_bytes::Text;
use uc_catalog::Catalog;
use uc_io::{Files, OpenAnswer};

/// Reads the update file of a name piece by piece and adds it to the catalogue, or says why not: the files and entries
/// are then as they were. Pieces that were fed before are forgotten. The piece is lent: nothing is taken from what it holds.
pub fn read_update<F: Files>(
    alloc: Global,
    catalog: &mut Catalog,
    name: &Text,
    files: &mut F,
    piece: &mut [u8; PIECE],
) -> Result<(), UpdateAnswer>
    requires { length catalog.old.files < 16 }
    ensures answer { IsUpdateRead (F.tells files.old) (F.holds files.old name.now) (F.faults files.old) (F.faults files.new) catalog.old catalog.new result }
    ensures leaves { LeavesFiles F.holds F.tells F.faults files.old files.new }
{
    catalog.drop_file();
    match files.open_file(alloc, name.as_str()) {
        Ok(()) => {}
        Err(OpenAnswer::Failed) => return Err(UpdateAnswer::ReadFault),
        Err(OpenAnswer::NoMemory) => return Err(UpdateAnswer::NoMemory),
    }
    match feed_pieces(catalog, files, piece) {
        Ok(()) => end_update(catalog),
        Err(answer) => {
            catalog.drop_file();
            Err(answer)
        }
    }
}

/// Reads the update files of names, at most 16, one after another into a catalogue that is empty yet. The first that is not
/// read or has no reading decides, and no later one is opened.
pub fn read_files<F: Files>(
    alloc: Global,
    mut catalog: Catalog,
    names: &[Text],
    files: &mut F,
    piece: &mut [u8; PIECE],
) -> Result<Catalog, FilesAnswer>
    requires few { length names.now ≤ 16 }
    requires empty { catalog ≡ no_files catalog.keeps }
    ensures answer { AreFilesRead (F.tells files.old) names.now (F.holds files.old) (F.faults files.old) (F.faults files.new) result }
    ensures keeps { IfOk result (λ read. read.keeps ≡ catalog.keeps) }
    ensures leaves { LeavesFiles F.holds F.tells F.faults files.old files.new }
{
    let mut place: u16 = 0;
    'names: for name in names {
        match read_update(alloc, &mut catalog, name, files, piece) {
            Ok(()) => {}
            Err(answer) => return Err(answer.in_place(place)),
        }
        place += 1;
    }
    Ok(catalog)
}
