//! The plan of a load.

ghost use Rattle.std.specs.Prelude.{◌≡◌, ◌+◌, ◌*◌, ◌<◌, ◌≤◌, ◌↔◌, IsTrue};
ghost use Rattle.rendezvous_steps.specs.declared.steps.Kind.TheVariants.{Online};
ghost use Rattle.rendezvous_steps.specs.Plan.{online_count, offline_count};
ghost use Rattle.rendezvous_steps.specs.declared.operations.Word.{Word as WordName};
ghost use Rattle.ctl_words.specs.Plans.{plan_of, TablesFit, ThreadFits, ThreadsFit, OfferFits, GroupFits, GroupsFit};
ghost use Rattle.ctl_words.specs.Plans.{IsSound};
ghost use Rattle.ctl_words.specs.Places.{is_word, place_of, word_count};

use arrayvec::ArrayVec;
use rendezvous_steps::{Kind, Word};

/// What a load sets out with. `kind` and `group` go by thread, the tables after them by group.
#[derive(Drop)]
pub struct Plan {
    pub threads: u16,
    pub kind: ArrayVec<Kind, 256>,
    pub group: ArrayVec<u16, 256>,
    /// The lowest thread of the group.
    pub primary: ArrayVec<u16, 256>,
    /// The revision that the group is to have.
    pub offer: ArrayVec<Option<u32>, 256>,
    /// Whether the group refuses a write.
    pub refuse: ArrayVec<bool, 256>,
    /// The revision that the group has.
    pub rev0: ArrayVec<u32, 256>,
    /// How many polls a thread waits before it may time out.
    pub patience: u32,
}

impl Plan {
    /// What the thread is; past the last one Absent.
    pub fn kind_of(&self, thread: u16) -> Kind
        ensures { result ≡ (plan_of self.now).kind thread }
    {
        self.kind
            .get(usize::from(thread))
            .copied()
            .unwrap_or(Kind::Absent)
    }

    /// The thread's group; past the last thread a number past the last group.
    pub fn group_of(&self, thread: u16) -> u16
        ensures { result ≡ (plan_of self.now).group thread }
    {
        self.group
            .get(usize::from(thread))
            .copied()
            .unwrap_or(self.groups())
    }

    /// The group's primary; past the last group a number past the last thread.
    pub fn primary_of(&self, group: u16) -> u16
        ensures { result ≡ (plan_of self.now).primary group }
    {
        self.primary
            .get(usize::from(group))
            .copied()
            .unwrap_or(self.threads)
    }

    /// The group's offer, if it has one.
    pub fn offer_of(&self, group: u16) -> Option<u32>
        ensures { result ≡ (plan_of self.now).offer group }
    {
        self.offer.get(usize::from(group)).copied().unwrap_or(None)
    }

    /// Whether the group refuses a write.
    pub fn refuses(&self, group: u16) -> bool
        ensures { result ≡ (plan_of self.now).refuse group }
    {
        self.refuse
            .get(usize::from(group))
            .copied()
            .unwrap_or(false)
    }

    /// The revision that the group has when the load begins; past the last group 0.
    pub fn rev0_of(&self, group: u16) -> u32
        ensures { result ≡ (plan_of self.now).rev0 group }
    {
        self.rev0.get(usize::from(group)).copied().unwrap_or(0)
    }

    /// How many groups there are.
    pub fn groups(&self) -> u16
        ensures value { result ≡ (plan_of self.now).groups }
        ensures few { result ≤ 256 }
    {
        self.primary.len() as u16
    }

    /// How many threads are Online.
    pub fn online(&self) -> u16
        requires { IsSound self.now }
        ensures { result ≡ online_count (plan_of self.now) }
    {
        self.kind.iter().filter(|kind| kind.is_online()).count() as u16
    }

    /// How many threads are Offline.
    pub fn offline(&self) -> u16
        requires { IsSound self.now }
        ensures { result ≡ offline_count (plan_of self.now) }
    {
        self.kind.iter().filter(|kind| kind.is_offline()).count() as u16
    }

    /// Whether a load may run with this plan.
    pub fn sound(&self) -> bool
        ensures { IsTrue result ↔ IsSound self.now }
    {
        self.tables_fit() && self.first_is_online() && self.threads_fit() && self.groups_fit()
    }

    fn tables_fit(&self) -> bool
        ensures { IsTrue result ↔ TablesFit self.now }
    {
        let threads = usize::from(self.threads);
        let groups = self.primary.len();
        0 < threads
            && threads <= 256
            && self.kind.len() == threads
            && self.group.len() == threads
            && self.offer.len() == groups
            && self.refuse.len() == groups
            && self.rev0.len() == groups
    }

    fn first_is_online(&self) -> bool
        ensures { IsTrue result ↔ ((plan_of self.now).kind 0 ≡ Online) }
    {
        self.kind_of(0) == Kind::Online
    }

    fn threads_fit(&self) -> bool
        ensures { IsTrue result ↔ ThreadsFit (plan_of self.now) }
    {
        for thread in 0..self.threads {
            if !self.thread_fits(thread) {
                return false;
            }
        }
        true
    }

    fn thread_fits(&self, thread: u16) -> bool
        ensures { IsTrue result ↔ ThreadFits (plan_of self.now) thread }
    {
        let group = self.group_of(thread);
        let primary = self.primary_of(group);
        group < self.groups()
            && primary <= thread
            && (self.kind_of(thread) == Kind::Absent || self.kind_of(primary) == Kind::Online)
    }

    fn groups_fit(&self) -> bool
        ensures { IsTrue result ↔ GroupsFit (plan_of self.now) }
    {
        for group in 0..self.groups() {
            if !self.group_fits(group) {
                return false;
            }
        }
        true
    }

    fn group_fits(&self, group: u16) -> bool
        ensures { IsTrue result ↔ GroupFits (plan_of self.now) group }
    {
        let primary = self.primary_of(group);
        primary < self.threads && self.group_of(primary) == group && self.offer_fits(group)
    }

    fn offer_fits(&self, group: u16) -> bool
        ensures { IsTrue result ↔ OfferFits (plan_of self.now) group }
    {
        match self.offer_of(group) {
            Some(offer) => {
                self.kind_of(self.primary_of(group)) == Kind::Online && self.rev0_of(group) < offer
            }
            None => true,
        }
    }

    /// How many words the plan has.
    pub fn words(&self) -> u32
        requires { IsSound self.now }
        ensures { result ≡ word_count (plan_of self.now) }
    {
        3 + 3 * u32::from(self.threads) + 2 * u32::from(self.groups())
    }

    /// The number of a word in a table. Different words have different numbers.
    pub fn place(&self, word: Word) -> u32
        requires sound { IsSound self.now }
        requires known { IsTrue (is_word (plan_of self.now) word) }
        ensures place { result ≡ place_of (plan_of self.now) word }
        ensures in_table { result < word_count (plan_of self.now) }
        ensures apart { (other : WordName) → IsTrue (is_word (plan_of self.now) other) →
            place_of (plan_of self.now) other ≡ result → other ≡ word }
    {
        let threads = u32::from(self.threads);
        let groups = u32::from(self.groups());
        match word {
            Word::Arrive => 0,
            Word::OffIn => 1,
            Word::Decide => 2,
            Word::Mode(thread) => 3 + u32::from(thread),
            Word::Ctrl(thread) => 3 + threads + u32::from(thread),
            Word::Nmi(thread) => 3 + 2 * threads + u32::from(thread),
            Word::Rev(group) => 3 + 3 * threads + u32::from(group),
            Word::Res(group) => 3 + 3 * threads + groups + u32::from(group),
        }
    }
}
