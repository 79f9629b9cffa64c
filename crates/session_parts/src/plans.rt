//! The plan with which the rendezvous of a load sets out.

ghost use Rattle.std.specs.Prelude.{◌≡◌, ℕ, ◌<◌, ◌≤◌, Bool, List, Option, Some, length, map, option_map};
ghost use Rattle.std.specs.List.{range_with_len};
ghost use Rattle.uc_topology.specs.Stated.{group_count};
ghost use Rattle.entry_model.specs.Entry.{Entry};
ghost use Rattle.read_model.specs.Reads.{Read};
ghost use Rattle.machine_steps.specs.BringUps.{revision};
ghost use Rattle.machine_steps.specs.Puts.{patch_at};
ghost use Rattle.early_load.specs.Caches.{first_block, HoldsPatch};
ghost use Rattle.ctl_words.specs.Plans.{plan_of, TablesFit, IsSound};
ghost use Rattle.session_steps.specs.State.{State};
ghost use Rattle.session_steps.specs.Offers.{kind_of, AreLoadOffers, SomethingOffered, plan_of as load_plan};
ghost use Rattle.session_steps.specs.Step.{AllPresent, ReadAll};
ghost use Rattle.session_laws.specs.Standing.{Standing};
ghost use Rattle.session_parts.specs.Loads.{IsPut, PlacesHeld};
ghost use Rattle.session_parts.specs.Plans.{AreByThread, AreByGroup, revision_put};

use crate::parts::Parts;
use arrayvec::ArrayVec;
use ctl_words::Plan;
use hw_machine::ThreadState;
use patch_pool::PatchId;
use rendezvous_steps::Kind;
use uc_bytes::word_at;

impl Parts {
    ghost use Rattle.session_parts.specs.Parts.{setting_of, state_of};

    /// Makes of a plan that of a load that has put its patches at these places, one for each group or none.
    pub fn plan(&self, places: &[Option<PatchId>], plan: &mut Plan)
        requires groups { length places.now ≡ group_count (setting_of self.now).machine.stated.cores }
        requires held { PlacesHeld (state_of self.now).patches places.now }
        ensures tables { TablesFit plan.new }
        ensures plan { (entries : List Entry) (offers : List (Option ℕ)) (before : State)
            (put : IsPut (setting_of self.now) entries offers before (state_of self.now) places.now) →
            plan_of plan.new ≡ load_plan (setting_of self.now) before put.puts offers }
        ensures sound { (force : Bool) (names : List (List ℕ)) (reads : List Read) (entries : List Entry)
            (offers : List (Option ℕ)) (before : State) →
            IsPut (setting_of self.now) entries offers before (state_of self.now) places.now →
            Standing (setting_of self.now) before → AllPresent (setting_of self.now) before →
            ReadAll names reads entries → AreLoadOffers (setting_of self.now) before force entries offers →
            SomethingOffered offers → IsSound plan.new }
    {
        plan.threads = self.topology.threads();
        self.by_thread(&mut plan.kind, &mut plan.group);
        self.by_group(&mut plan.primary, &mut plan.refuse, &mut plan.rev0);
        self.offered_revisions(places, &mut plan.offer);
        plan.patience = self.patience;
    }

    /// What a thread is in a load.
    fn kind(&self, t: u16) -> Kind
        requires { t < length (setting_of self.now).machine.stated.threads }
        ensures { result ≡ kind_of ((state_of self.now).hardware.thread t) }
    {
        match self.machine.state(t) {
            ThreadState::Up => Kind::Online,
            ThreadState::Offline => Kind::Offline,
            ThreadState::Cold => Kind::Absent,
        }
    }

    /// What each thread is, and its group.
    fn by_thread(&self, kind: &mut ArrayVec<Kind, 256>, group: &mut ArrayVec<u16, 256>)
        ensures { AreByThread (setting_of self.now) (state_of self.now)
            (length (setting_of self.now).machine.stated.threads) kind.new.items group.new.items }
    {
        kind.clear();
        group.clear();
        'threads: for t in 0..self.topology.threads() {
            kind.push(self.kind(t));
            group.push(self.machine.group_of(t));
        }
    }

    /// The primary of each group, whether it refuses a write, and its revision.
    fn by_group(
        &self,
        primary: &mut ArrayVec<u16, 256>,
        refuse: &mut ArrayVec<bool, 256>,
        rev0: &mut ArrayVec<u32, 256>,
    )
        ensures { AreByGroup (setting_of self.now) (state_of self.now)
            (group_count (setting_of self.now).machine.stated.cores) primary.new.items refuse.new.items rev0.new.items }
    {
        primary.clear();
        refuse.clear();
        rev0.clear();
        'groups: for g in 0..self.topology.groups() {
            primary.push(self.topology.primary_of(g));
            refuse.push(self.machine.refuses(g));
            rev0.push(self.machine.rev(g));
        }
    }

    /// The revision of the patch at a place, as the region lends it.
    fn revision_at(&self, place: Option<PatchId>) -> Option<u32>
        requires { (first : ℕ) → first_block place ≡ Some first → HoldsPatch ((state_of self.now).patches first) }
        ensures { result ≡ option_map revision (patch_at (state_of self.now).patches (first_block place)) }
    {
        let id = place?;
        Some(word_at(self.pool.bytes(id), 4))
    }

    /// The revision of the patch at each place.
    fn offered_revisions(
        &self,
        places: &[Option<PatchId>],
        revisions: &mut ArrayVec<Option<u32>, 256>,
    )
        requires few { length places.now ≤ 256 }
        requires held { PlacesHeld (state_of self.now).patches places.now }
        ensures { revisions.new.items
            ≡ map (revision_put (state_of self.now).patches places.now) (range_with_len 0 (length places.now)) }
    {
        revisions.clear();
        'groups: for g in 0..places.len() {
            revisions.push(self.revision_at(places[g]));
        }
    }
}
