//! A machine is booted.

ghost use Rattle.std.specs.Prelude.{◌≡◌, IsTrue, length, MatchResult};
ghost use Rattle.uc_topology.specs.Stated.{group_count};
ghost use Rattle.early_load.specs.Puts.{AreEntries};
ghost use Rattle.session_laws.specs.Standing.{Standing};
ghost use Rattle.session_parts.specs.Boots.{IsBooted, IsRefused};

use crate::parts::Parts;
use arrayvec::ArrayVec;
use early_load::{BootAnswer, BringUp, boot};
use uc_catalog::Catalog;

impl Parts {
    ghost use Rattle.session_parts.specs.Parts.{setting_of, state_of};

    /// Puts what each group is offered, lets the groups cache it, and brings every thread up, in ascending order. Where
    /// it refuses, all stays as it was.
    pub fn boot(
        &mut self,
        catalog: &Catalog,
        offers: &[Option<u32>],
    ) -> Result<ArrayVec<BringUp, 256>, BootAnswer>
        requires standing { Standing (setting_of self.old) (state_of self.old) }
        requires offers { length offers.now ≡ group_count (setting_of self.old).machine.stated.cores }
        requires known { AreEntries catalog.now offers.now }
        requires keeps { IsTrue catalog.now.keeps }
        ensures answer { MatchResult result
            (λ ups. IsBooted (setting_of self.old) catalog.now.entries offers.now (state_of self.old)
            (state_of self.new) ups.items)
            (λ answer. IsRefused (setting_of self.old) catalog.now.entries offers.now (state_of self.old) answer
            × (state_of self.new ≡ state_of self.old)) }
        ensures setting { setting_of self.new ≡ setting_of self.old }
    {
        boot(
            &mut self.machine,
            catalog,
            offers,
            &mut self.pool,
            &mut self.cache,
        )
    }
}
