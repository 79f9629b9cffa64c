//! The reading of files, with the names of those that are not read or are refused.
ghost use Rattle.std.specs.Prelude.{◌≡◌, ◌≤◌, IfOk, length};
ghost use Rattle.uc_catalog.specs.Contents.{no_files};
ghost use Rattle.uc_cli.specs.Reading.{AreUpdatesRead, IsTopologyRead, IsScriptRead};
ghost use Rattle.tool_text.specs.Plays.{limits_of};

use crate::refusal::Refusal;
use std::alloc::Global;
use tool_text::read_model::TOPOLOGY_LIMIT;
use tool_text::script_text::{SCRIPT_LIMIT, Script, ScriptCause, ScriptFault};
use uc_bytes::Text;
use uc_catalog::Catalog;
use uc_io::{Files, ReadAnswer};
use uc_script::{ScriptAnswer, read_script};
use uc_topology::{TopoCause, TopoFault, Topology, read_topology};
use update_reads::{FilesAnswer, PIECE, read_files};

/// Reads the update files of names, at most 16, one after another into a catalogue that is empty yet. The first that is
/// not read or has no reading decides, and no later one is opened.
pub fn read_updates<'a, F: Files>(
    alloc: Global,
    catalog: Catalog,
    names: &'a [Text],
    files: &mut F,
) -> Result<Catalog, Refusal<'a>>
    requires few { length names.now ≤ 16 }
    requires empty { catalog ≡ no_files catalog.keeps }
    ensures answer { AreUpdatesRead
        (F.tells files.old) names.now (F.holds files.old) (F.faults files.old) (F.faults files.new) result }
    ensures keeps { IfOk result (λ read. read.keeps ≡ catalog.keeps) }
    ensures same { F.holds files.new ≡ F.holds files.old }
    ensures still { F.tells files.old → F.tells files.new }
    ensures later { F.faults files.old ≤ F.faults files.new }
{
    match read_files(alloc, catalog, names, files, &mut [0; PIECE]) {
        Ok(catalog) => Ok(catalog),
        Err(FilesAnswer::Unread(file)) => Err(Refusal::Unread(&names[usize::from(file)])),
        Err(FilesAnswer::Refused(file, fault)) => {
            Err(Refusal::BadFile(&names[usize::from(file)], fault))
        }
        Err(FilesAnswer::NoMemory) => Err(Refusal::NoMemory),
    }
}

/// Reads the topology of a name.
pub fn read_machine<'a, F: Files>(
    alloc: Global,
    name: &'a Text,
    files: &mut F,
) -> Result<Topology, Refusal<'a>>
    ensures answer { IsTopologyRead
        (F.tells files.old) name.now (F.holds files.old name.now) (F.faults files.old) (F.faults files.new) result }
    ensures same { F.holds files.new ≡ F.holds files.old }
    ensures still { F.tells files.old → F.tells files.new }
    ensures later { F.faults files.old ≤ F.faults files.new }
{
    let bytes = match files.read(alloc, name.as_str(), TOPOLOGY_LIMIT) {
        Ok(bytes) => bytes,
        Err(ReadAnswer::Failed) => return Err(Refusal::Unread(name)),
        Err(ReadAnswer::TooLong(_)) => {
            return Err(Refusal::BadTopology(TopoFault {
                line: 0,
                cause: TopoCause::TooLong,
            }));
        }
        Err(ReadAnswer::NoMemory) => return Err(Refusal::NoMemory),
    };
    match read_topology(bytes.as_slice()) {
        Ok(topology) => Ok(topology),
        Err(fault) => Err(Refusal::BadTopology(fault)),
    }
}

/// Reads the script of a name, for a machine.
pub fn read_commands<'a, F: Files>(
    alloc: Global,
    name: &'a Text,
    machine: &Topology,
    files: &mut F,
) -> Result<Script, Refusal<'a>>
    ensures answer { IsScriptRead (F.tells files.old) (limits_of machine.now)
        name.now (F.holds files.old name.now) (F.faults files.old) (F.faults files.new) result }
    ensures same { F.holds files.new ≡ F.holds files.old }
    ensures still { F.tells files.old → F.tells files.new }
    ensures later { F.faults files.old ≤ F.faults files.new }
{
    let bytes = match files.read(alloc, name.as_str(), SCRIPT_LIMIT) {
        Ok(bytes) => bytes,
        Err(ReadAnswer::Failed) => return Err(Refusal::Unread(name)),
        Err(ReadAnswer::TooLong(_)) => {
            return Err(Refusal::BadScript(ScriptFault {
                line: 0,
                cause: ScriptCause::TooLong,
            }));
        }
        Err(ReadAnswer::NoMemory) => return Err(Refusal::NoMemory),
    };
    match read_script(alloc, bytes.as_slice(), machine.threads(), machine.cores()) {
        Ok(script) => Ok(script),
        Err(ScriptAnswer::Fault(fault)) => Err(Refusal::BadScript(fault)),
        Err(ScriptAnswer::NoMemory) => Err(Refusal::NoMemory),
    }
}
