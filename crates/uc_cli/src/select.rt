//! `select`: the entry that each core of a machine is offered.
ghost use Rattle.std.specs.Prelude.{◌≡◌, ◌≤◌, length};
ghost use Rattle.uc_io.specs.Faults.{Rose};
ghost use Rattle.status_rule.specs.Causes.{ReadCause, WriteCause};
ghost use Rattle.status_rule.specs.Written.{Written};
ghost use Rattle.tool_text.specs.Commands.{SelectText};
ghost use Rattle.tool_text.specs.Tool.{FromReads, UsageCause};
ghost use Rattle.tool_text.specs.Words.{SelectOf};
ghost use Rattle.uc_cli.specs.Selecting.{cores_of, PutsOffers};

use crate::reading::{read_machine, read_updates};
use crate::refusal::refuse;
use arrayvec::ArrayVec;
use status_rule::{Status, after_write};
use std::alloc::Global;
use uc_bytes::Text;
use uc_catalog::Catalog;
use uc_io::{Files, Sink, SinkFailed};
use uc_report::put_offers;
use uc_select::{CoreFacts, offers};
use uc_topology::Topology;

/// What the cores of each group are.
fn cores_of(topology: &Topology) -> ArrayVec<Option<CoreFacts>, 256>
    ensures { result.items ≡ cores_of topology.now }
{
    let vendor = topology.vendor();
    let mut cores = ArrayVec::new();
    'cores: for group in 0..topology.groups() {
        let facts = topology.facts(group);
        cores.push(Some(CoreFacts {
            vendor,
            sig: facts.sig,
            flags: facts.flags,
            rev: facts.rev,
        }));
    }
    cores
}

/// Writes a line for each core of a machine: the entry that it is offered at its revision.
fn put_selection<S: Sink>(
    out: &mut S,
    topology: &Topology,
    catalog: &Catalog,
) -> Result<(), SinkFailed>
    ensures { PutsOffers S.stands S.faults out.old out.new topology.now catalog.now.entries result }
{
    let cores = cores_of(topology);
    let offers = offers(catalog, cores.as_slice(), false);
    put_offers(out, topology, catalog, offers.as_slice())
}

/// Reads a topology and then the update files of names, at most 16, and writes what each core is offered, or says why
/// nothing is.
pub fn select<F: Files, S: Sink>(
    alloc: Global,
    topology: &Text,
    names: &[Text],
    files: &mut F,
    out: &mut S,
) -> Status
    requires { length names.now ≤ 16 }
    ensures written { Written (FromReads (F.tells files.old) (F.holds files.old) (SelectText topology.now names.now)) (Rose (F.faults files.old) (F.faults files.new)) S.stands out.old out.new result }
    ensures usage { UsageCause (SelectOf topology.now names.now) result }
    ensures read_cause { ReadCause (F.faults files.old) (F.faults files.new) result }
    ensures write_cause { WriteCause (S.faults out.old) (S.faults out.new) result }
    ensures same { F.holds files.new ≡ F.holds files.old }
    ensures still { F.tells files.old → F.tells files.new }
    ensures later { F.faults files.old ≤ F.faults files.new }
{
    let machine = match read_machine(alloc, topology, files) {
        Ok(machine) => machine,
        Err(refusal) => return refuse(out, refusal),
    };
    match read_updates(alloc, Catalog::of_facts(alloc), names, files) {
        Ok(catalog) => after_write(Status::Done, put_selection(out, &machine, &catalog)),
        Err(refusal) => refuse(out, refusal),
    }
}
