//! What the groups of a machine are offered at the firmware's revision. `uc_select` chooses for cores; here these are
//! the cores of a topology's groups, of which those of one group agree.

ghost use Rattle.std.specs.Prelude.{◌≡◌, ◌<◌, Some, length, map, All, IfSome};
ghost use Rattle.std.specs.List.{range_with_len};
ghost use Rattle.uc_topology.specs.Stated.{group_count};
ghost use Rattle.report_text.specs.Offers.{AreOffers, facts_of_group};
ghost use Rattle.session_parts.specs.Facts.{facts_at};

use arrayvec::ArrayVec;
use uc_catalog::Catalog;
use uc_select::{CoreFacts, offers};
use uc_topology::Topology;

/// What the cores of a group are, at a revision.
pub fn core_facts(topology: &Topology, group: u16, rev: u32) -> CoreFacts
    requires { group < group_count topology.now.stated.cores }
    ensures { result ≡ facts_at topology.now group rev }
{
    let facts = topology.facts(group);
    CoreFacts {
        vendor: topology.vendor(),
        sig: facts.sig,
        flags: facts.flags,
        rev,
    }
}

/// What the cores of each group are, at the revision that the firmware gives it.
fn firmware_cores(topology: &Topology) -> ArrayVec<Option<CoreFacts>, 256>
    ensures { result.items
        ≡ map (λ group. Some (facts_of_group topology.now group))
        (range_with_len 0 (group_count topology.now.stated.cores)) }
{
    let mut cores = ArrayVec::new();
    'cores: for group in 0..topology.groups() {
        let rev = topology.facts(group).rev;
        cores.push(Some(core_facts(topology, group, rev)));
    }
    cores
}

/// The offer of each group at the revision that the firmware gives it, without force. Its contract says also that each
/// is an entry of the catalogue.
pub fn firmware_offers(topology: &Topology, catalog: &Catalog) -> ArrayVec<Option<u32>, 256>
    ensures offers { AreOffers topology.now catalog.now.entries result.items }
    ensures within { All (λ offer. IfSome offer (λ number. number < length catalog.now.entries)) result.items }
{
    let cores = firmware_cores(topology);
    offers(catalog, cores.as_slice(), false)
}
