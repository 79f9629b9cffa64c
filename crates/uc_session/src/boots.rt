//! A boot.

ghost use Rattle.std.specs.Prelude.{◌≡◌, ◌≤◌, true, IsTrue, length, IfOk, IfErr};
ghost use Rattle.session_steps.specs.machine_steps.Hardware.{is_off};
ghost use Rattle.session_steps.specs.script_text.declared.command.Command.TheVariants.{Boot};
ghost use Rattle.session_laws.specs.Standing.{Standing};
ghost use Rattle.session_steps.specs.Calls.{HeldWhere};
ghost use Rattle.session_parts.specs.Parts.{setting_of, state_of};
ghost use Rattle.uc_session.specs.Acts.{Acts};
ghost use Rattle.uc_session.specs.Boots.{BootsTo};

use crate::acted::Acted;
use early_load::BootAnswer;
use hw_machine::Power;
use session_parts::Parts;
use session_steps::machine_steps::HotAnswer;
use session_steps::session_text::{CommandAnswer, LoadAnswer};
use std::alloc::Global;
use uc_bytes::{NoMemory, Text};
use uc_catalog::Catalog;
use uc_io::Files;
use update_reads::{FilesAnswer, PIECE, read_files};

/// Boots with the files of these names, at most 16. Where memory runs out the parts are as they were.
pub fn boot<F: Files>(
    alloc: Global,
    parts: &mut Parts,
    names: &[Text],
    files: &mut F,
    piece: &mut [u8; PIECE],
) -> Result<Acted, NoMemory>
    requires few { length names.now ≤ 16 }
    requires standing { Standing (setting_of parts.old) (state_of parts.old) }
    ensures done { IfOk result
        (Acts (HeldWhere (F.tells files.old) (F.holds files.old)) (setting_of parts.old) (Boot names.now)
        (record { state = state_of parts.old; files = F.faults files.old })
        (record { state = state_of parts.new; files = F.faults files.new })) }
    ensures memory { IfErr result
        (λ _. (state_of parts.new ≡ state_of parts.old) × (F.faults files.new ≡ F.faults files.old)) }
    ensures setting { setting_of parts.new ≡ setting_of parts.old }
    ensures same { F.holds files.new ≡ F.holds files.old }
    ensures still { F.tells files.old → F.tells files.new }
    ensures later { F.faults files.old ≤ F.faults files.new }
{
    if is_off(parts.power()) {
        boot_off(alloc, parts, names, files, piece)
    } else {
        Ok(Acted::only(CommandAnswer::Hot(HotAnswer::Booted)))
    }
}

fn is_off(power: Power) -> bool
    ensures { result ≡ is_off power }
{
    matches!(power, Power::Off)
}

/// Boots a machine that is off, with the files of these names.
fn boot_off<F: Files>(
    alloc: Global,
    parts: &mut Parts,
    names: &[Text],
    files: &mut F,
    piece: &mut [u8; PIECE],
) -> Result<Acted, NoMemory>
    requires few { length names.now ≤ 16 }
    requires standing { Standing (setting_of parts.old) (state_of parts.old) }
    requires off { is_off (state_of parts.old).hardware.power ≡ true }
    ensures done { IfOk result
        (Acts (HeldWhere (F.tells files.old) (F.holds files.old)) (setting_of parts.old) (Boot names.now)
        (record { state = state_of parts.old; files = F.faults files.old })
        (record { state = state_of parts.new; files = F.faults files.new })) }
    ensures memory { IfErr result
        (λ _. (state_of parts.new ≡ state_of parts.old) × (F.faults files.new ≡ F.faults files.old)) }
    ensures setting { setting_of parts.new ≡ setting_of parts.old }
    ensures same { F.holds files.new ≡ F.holds files.old }
    ensures still { F.tells files.old → F.tells files.new }
    ensures later { F.faults files.old ≤ F.faults files.new }
{
    match read_files(alloc, Catalog::new(alloc), names, files, piece) {
        Ok(catalog) => Ok(boot_from(parts, &catalog)),
        Err(FilesAnswer::Unread(file)) => Ok(Acted::load(LoadAnswer::ReadFault(file))),
        Err(FilesAnswer::Refused(file, fault)) => Ok(Acted::load(LoadAnswer::BadFile(file, fault))),
        Err(FilesAnswer::NoMemory) => Err(NoMemory),
    }
}

/// Boots a machine that is off, with the entries of a catalogue.
fn boot_from(parts: &mut Parts, catalog: &Catalog) -> Acted
    requires standing { Standing (setting_of parts.old) (state_of parts.old) }
    requires off { is_off (state_of parts.old).hardware.power ≡ true }
    requires keeps { IsTrue catalog.now.keeps }
    ensures done { BootsTo (setting_of parts.old) catalog.now.entries (state_of parts.old)
        (state_of parts.new) result result.answer }
    ensures setting { setting_of parts.new ≡ setting_of parts.old }
{
    let offers = parts.boot_offers(catalog);
    match parts.boot(catalog, offers.as_slice()) {
        Ok(ups) => Acted::all_up(ups),
        Err(BootAnswer::Booted) => Acted::only(CommandAnswer::Hot(HotAnswer::Booted)),
        Err(BootAnswer::PoolFull(needed)) => Acted::load(LoadAnswer::PoolFull(needed)),
    }
}
