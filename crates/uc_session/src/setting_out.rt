//! A load, as far as its rendezvous.

ghost use Rattle.std.specs.Prelude.{◌≡◌, ◌≤◌, IsTrue, length, is_some, MatchResult};
ghost use Rattle.std.specs.List.{list_any};
ghost use Rattle.session_laws.specs.Standing.{Standing};
ghost use Rattle.session_steps.specs.Calls.{HeldWhere};
ghost use Rattle.session_parts.specs.Parts.{setting_of, state_of};
ghost use Rattle.uc_session.specs.Loads.{ready_of, SetsOut, Stops, SetsOutFrom, StopsFrom};

use ctl_words::tables_end;
use session_parts::{LoadTables, Parts};
use session_steps::session_text::LoadAnswer;
use std::alloc::Global;
use uc_bytes::Text;
use uc_catalog::Catalog;
use uc_io::Files;
use update_reads::{FilesAnswer, PIECE, read_files};

/// Why a load does not come to its rendezvous.
#[derive(Debug, Drop)]
pub enum Stop {
    Answer(LoadAnswer),
    NoMemory,
}

/// Reads the files of these names, 1 to 16, and puts what the groups are offered: the tables then say what and where,
/// and have the load's plan. Where it stops the parts are as they were.
pub fn set_out<F: Files>(
    alloc: Global,
    parts: &mut Parts,
    force: bool,
    names: &[Text],
    files: &mut F,
    piece: &mut [u8; PIECE],
    tables: &mut LoadTables,
) -> Result<Catalog, Stop>
    requires few { length names.now ≤ 16 }
    requires standing { Standing (setting_of parts.old) (state_of parts.old) }
    ensures answer { MatchResult result
        (λ catalog. SetsOut (HeldWhere (F.tells files.old) (F.holds files.old)) (setting_of parts.new) force names.now
        (record { state = state_of parts.old; files = F.faults files.old })
        (record { state = state_of parts.new; files = F.faults files.new }) (ready_of catalog tables.new))
        (Stops (HeldWhere (F.tells files.old) (F.holds files.old)) (setting_of parts.old) force names.now
        (record { state = state_of parts.old; files = F.faults files.old })
        (record { state = state_of parts.new; files = F.faults files.new })) }
    ensures setting { setting_of parts.new ≡ setting_of parts.old }
    ensures same { F.holds files.new ≡ F.holds files.old }
    ensures still { F.tells files.old → F.tells files.new }
    ensures later { F.faults files.old ≤ F.faults files.new }
{
    tables_end();
    if let Some(t) = parts.first_missing() {
        return Err(Stop::Answer(LoadAnswer::Busy(t)));
    }
    let catalog = match read_files(alloc, Catalog::new(alloc), names, files, piece) {
        Ok(catalog) => catalog,
        Err(FilesAnswer::Unread(file)) => return Err(Stop::Answer(LoadAnswer::ReadFault(file))),
        Err(FilesAnswer::Refused(file, fault)) => {
            return Err(Stop::Answer(LoadAnswer::BadFile(file, fault)));
        }
        Err(FilesAnswer::NoMemory) => return Err(Stop::NoMemory),
    };
    match set_out_from(parts, force, &catalog, tables) {
        Ok(()) => Ok(catalog),
        Err(stop) => Err(stop),
    }
}

/// Whether some group is offered anything.
fn something_offered(offers: &[Option<u32>]) -> bool
    ensures { result ≡ list_any is_some offers.now }
{
    offers.iter().any(|offer| offer.is_some())
}

/// Puts what the groups are offered of a catalogue's entries, and makes the plan.
fn set_out_from(
    parts: &mut Parts,
    force: bool,
    catalog: &Catalog,
    tables: &mut LoadTables,
) -> Result<(), Stop>
    requires standing { Standing (setting_of parts.old) (state_of parts.old) }
    requires keeps { IsTrue catalog.now.keeps }
    ensures answer { MatchResult result
        (λ _. SetsOutFrom (setting_of parts.new) force catalog.now (state_of parts.old) (state_of parts.new)
        (ready_of catalog.now tables.new))
        (λ stop. StopsFrom (setting_of parts.old) force catalog.now (state_of parts.old) stop
        × (state_of parts.new ≡ state_of parts.old)) }
    ensures setting { setting_of parts.new ≡ setting_of parts.old }
{
    parts.load_offers(catalog, force, &mut tables.cores, &mut tables.offers);
    if !something_offered(tables.offers.as_slice()) {
        return Err(Stop::Answer(LoadAnswer::NotFound));
    }
    match parts.put_load(catalog, tables.offers.as_slice(), &mut tables.places) {
        Ok(()) => {}
        Err(full) => return Err(Stop::Answer(LoadAnswer::PoolFull(full.needed))),
    }
    parts.plan(tables.places.as_slice(), &mut tables.plan);
    Ok(())
}
