//! What a boot and a load offer the groups.

ghost use Rattle.std.specs.Prelude.{◌≡◌, ◌<◌, length, map, All, IfSome};
ghost use Rattle.std.specs.List.{range_with_len};
ghost use Rattle.uc_topology.specs.Stated.{group_count};
ghost use Rattle.report_text.specs.Offers.{AreOffers};
ghost use Rattle.session_steps.specs.State.{takes_part};
ghost use Rattle.session_steps.specs.Offers.{facts_now, AreLoadOffers};
ghost use Rattle.early_load.specs.Puts.{AreEntries};
ghost use Rattle.session_parts.specs.Loads.{core_where};

use crate::firmware::{core_facts, firmware_offers};
use crate::parts::Parts;
use arrayvec::ArrayVec;
use uc_catalog::Catalog;
use uc_select::{CoreFacts, fill_offers};

impl Parts {
    ghost use Rattle.session_parts.specs.Parts.{setting_of, state_of};

    /// What a boot offers the groups: each at the firmware's revision, without force. Its contract says also that each
    /// offer is an entry of the catalogue.
    pub fn boot_offers(&self, catalog: &Catalog) -> ArrayVec<Option<u32>, 256>
        ensures offers { AreOffers (setting_of self.now).machine catalog.now.entries result.items }
        ensures known { AreEntries catalog.now result.items }
    {
        firmware_offers(&self.topology, catalog)
    }

    /// What the cores of a group are at its present revision, where it takes part.
    fn present_core(&self, g: u16) -> Option<CoreFacts>
        requires { g < group_count (setting_of self.now).machine.stated.cores }
        ensures { result ≡ core_where (takes_part (setting_of self.now) (state_of self.now) g)
            (facts_now (setting_of self.now) (state_of self.now) g) }
    {
        if self.takes_part(g) {
            Some(core_facts(&self.topology, g, self.machine.rev(g)))
        } else {
            None
        }
    }

    /// The same of all groups.
    fn present_cores(&self, cores: &mut ArrayVec<Option<CoreFacts>, 256>)
        ensures { cores.new.items
            ≡ map (λ g. core_where (takes_part (setting_of self.now) (state_of self.now) g)
            (facts_now (setting_of self.now) (state_of self.now) g))
            (range_with_len 0 (group_count (setting_of self.now).machine.stated.cores)) }
    {
        cores.clear();
        'groups: for g in 0..self.topology.groups() {
            cores.push(self.present_core(g));
        }
    }

    /// What a load offers the groups: each that takes part at its present revision, with or without force, and no
    /// other. Its contract says also that each offer is an entry of the catalogue. `cores` is lent for what the groups
    /// are.
    pub fn load_offers(
        &self,
        catalog: &Catalog,
        force: bool,
        cores: &mut ArrayVec<Option<CoreFacts>, 256>,
        offers: &mut ArrayVec<Option<u32>, 256>,
    )
        ensures offers { AreLoadOffers (setting_of self.now)
            (state_of self.now) force catalog.now.entries offers.new.items }
        ensures known { AreEntries catalog.now offers.new.items }
        ensures within { All (λ offer. IfSome offer (λ number. number < length catalog.now.entries)) offers.new.items }
    {
        self.present_cores(cores);
        fill_offers(catalog, cores.as_slice(), force, offers);
    }
}
