//! What each core of a machine is offered.
ghost use Rattle.std.specs.Prelude.{◌≡◌, ◌<◌, length, All, IfSome};
ghost use Rattle.uc_io.specs.Writing.{Writes};
ghost use Rattle.uc_topology.specs.Stated.{group_count};
ghost use Rattle.uc_catalog.specs.Contents.{entry_at};
ghost use Rattle.report_text.specs.Offers.{line_of_offer, offers_text};

use crate::lines::{put_no_offer, put_offer};
use uc_catalog::Catalog;
use uc_io::{Sink, SinkFailed};
use uc_topology::Topology;

/// Writes the line of a core at a revision, with the entry that it is offered, or without.
fn put_core<S: Sink>(
    out: &mut S,
    catalog: &Catalog,
    core: u16,
    rev: u32,
    offer: Option<u32>,
) -> Result<(), SinkFailed>
    requires { IfSome offer (λ number. number < length catalog.now.entries) }
    ensures { Writes S.stands S.faults out.old out.new
        (line_of_offer (λ n. (entry_at catalog.now n).facts) core rev offer) result }
{
    match offer {
        Some(number) => put_offer(out, core, rev, number, &catalog.entry(number)),
        None => put_no_offer(out, core, rev),
    }
}

/// Writes the lines of all cores of a machine, each with the offer of its group: the number of an entry, or none. It
/// takes no memory.
pub fn put_offers<S: Sink>(
    out: &mut S,
    topology: &Topology,
    catalog: &Catalog,
    offers: &[Option<u32>],
) -> Result<(), SinkFailed>
    requires count { length offers.now ≡ group_count topology.now.stated.cores }
    requires within { All (λ offer. IfSome offer (λ number. number < length catalog.now.entries)) offers.now }
    ensures { Writes S.stands S.faults out.old out.new
        (offers_text topology.now (λ n. (entry_at catalog.now n).facts) offers.now) result }
{
    'cores: for core in 0..topology.cores() {
        let group = topology.group_of_core(core);
        let rev = topology.facts(group).rev;
        put_core(out, catalog, core, rev, offers[group as usize])?;
    }
    Ok(())
}
