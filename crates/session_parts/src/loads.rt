//! What a load puts into the region, and what it leaves.

ghost use Rattle.std.specs.Prelude.{◌≡◌, ℕ, ◌<◌, ◌≤◌, true, IsTrue, List, Option, length, slice_index, IfOk, IfErr};
ghost use Rattle.std.specs.Prelude.{Err};
ghost use Rattle.uc_topology.specs.Stated.{group_count};
ghost use Rattle.entry_model.specs.Entry.{Entry};
ghost use Rattle.rendezvous_model.specs.Outcome.{Outcome};
ghost use Rattle.machine_steps.specs.Hardware.{is_on};
ghost use Rattle.hw_machine.specs.Machine.{setting_of as machine_setting, hardware_of};
ghost use Rattle.early_load.specs.Caches.{groups_of, cached_of, first_block};
ghost use Rattle.early_load.specs.Puts.{AreEntries};
ghost use Rattle.ctl_words.specs.Plans.{plan_of};
ghost use Rattle.session_steps.specs.State.{Setting, State};
ghost use Rattle.session_steps.specs.Offers.{plan_of as load_plan};
ghost use Rattle.session_steps.specs.Did.{loaded};
ghost use Rattle.session_parts.specs.Boots.{puts_of};
ghost use Rattle.session_parts.specs.Loads.{IsPut, with_revisions, written_place, kept_by_plan};

use crate::parts::Parts;
use arrayvec::ArrayVec;
use ctl_words::Plan;
use early_load::{PatchCache, put_offers, take_back};
use hw_machine::Machine;
use patch_pool::{PatchId, PoolFull};
use uc_catalog::Catalog;

impl Parts {
    ghost use Rattle.session_parts.specs.Parts.{setting_of, state_of};

    /// Puts the patch of each offer into the region; `places` then tells for each group where that of its offer begins.
    /// Where an entry finds no room, the parts stay as they were.
    pub fn put_load(
        &mut self,
        catalog: &Catalog,
        offers: &[Option<u32>],
        places: &mut ArrayVec<Option<PatchId>, 256>,
    ) -> Result<(), PoolFull>
        requires offers { length offers.now ≡ group_count (setting_of self.old).machine.stated.cores }
        requires known { AreEntries catalog.now offers.now }
        requires keeps { IsTrue catalog.now.keeps }
        ensures put { IfOk result
            (λ _. IsPut (setting_of self.old) catalog.now.entries offers.now (state_of self.old)
            (state_of self.new) places.new.items) }
        ensures full { IfErr result
            (λ full. (puts_of (setting_of self.old) (state_of self.old) catalog.now.entries offers.now
            ≡ Err full.needed) × (state_of self.new ≡ state_of self.old)) }
        ensures setting { setting_of self.new ≡ setting_of self.old }
    {
        put_offers(catalog, offers, &mut self.pool, places)
    }

    /// Frees what a load put at these places: all is then as before the puts.
    pub fn take_back(&mut self, places: &[Option<PatchId>])
        ensures back { (setting : Setting) (entries : List Entry) (offers : List (Option ℕ)) (before : State) →
            IsPut setting entries offers before (state_of self.old) places.now → state_of self.new ≡ before }
        ensures setting { setting_of self.new ≡ setting_of self.old }
    {
        take_back(places, &mut self.pool);
    }

    /// Keeps what a rendezvous came to: each group is at its revision, each whose revision is now its offer caches the
    /// new patch, and the region keeps just what is cached. Power is on, no revision is below the present one, and the
    /// plan is the load's, which put its patches at these places.
    pub fn finish_load(&mut self, places: &[Option<PatchId>], plan: &Plan, revs: &[u32])
        requires power { is_on (state_of self.old).hardware.power ≡ true }
        requires places { length places.now ≡ group_count (setting_of self.old).machine.stated.cores }
        requires revs { length revs.now ≡ group_count (setting_of self.old).machine.stated.cores }
        requires no_lower { (g : ℕ) → g < group_count (setting_of self.old).machine.stated.cores →
            (state_of self.old).hardware.rev g ≤ slice_index revs.now g }
        ensures kept { (entries : List Entry) (offers : List (Option ℕ)) (before : State) (outcome : Outcome)
            (put : IsPut (setting_of self.old) entries offers before (state_of self.old) places.now) →
            plan_of plan.now ≡ load_plan (setting_of self.old) before put.puts offers → outcome.revs ≡ revs.now →
            state_of self.new ≡ loaded (setting_of self.old) before put.puts offers (plan_of plan.now) outcome }
        ensures setting { setting_of self.new ≡ setting_of self.old }
    {
        set_revisions(&mut self.machine, revs);
        keep_written(&mut self.cache, places, plan, revs);
        self.cache.sweep(&mut self.pool);
    }
}

/// Sets the revision of each group.
fn set_revisions(machine: &mut Machine, revs: &[u32])
    requires groups { length revs.now ≡ (machine_setting machine.old).groups }
    requires power { is_on (hardware_of machine.old).power ≡ true }
    requires no_lower { (g : ℕ) → g < length revs.now → (hardware_of machine.old).rev g ≤ slice_index revs.now g }
    ensures set { hardware_of machine.new ≡ with_revisions (hardware_of machine.old) revs.now (length revs.now) }
    ensures same_setting { machine_setting machine.new ≡ machine_setting machine.old }
{
    'groups: for g in 0..machine.groups() {
        machine.set_rev(g, revs[g as usize]);
    }
}

/// The new patch of a group whose revision is now its offer.
fn written(place: Option<PatchId>, offer: Option<u32>, rev: u32) -> Option<PatchId>
    ensures { first_block result ≡ written_place offer rev (first_block place) }
{
    match offer {
        Some(offer) if offer == rev => place,
        _ => None,
    }
}

/// Lets each group whose revision is now its offer cache the patch at its place, if there is one.
fn keep_written(cache: &mut PatchCache, places: &[Option<PatchId>], plan: &Plan, revs: &[u32])
    requires places { length places.now ≡ groups_of cache.old }
    requires revs { length revs.now ≡ groups_of cache.old }
    ensures kept { cached_of cache.new
        ≡ kept_by_plan (plan_of plan.now) places.now revs.now (cached_of cache.old) (groups_of cache.old) }
    ensures size { groups_of cache.new ≡ groups_of cache.old }
{
    'groups: for g in 0..cache.groups() {
        let id = match written(places[g as usize], plan.offer_of(g), revs[g as usize]) {
            Some(id) => id,
            None => continue,
        };
        cache.keep(g, id);
    }
}
