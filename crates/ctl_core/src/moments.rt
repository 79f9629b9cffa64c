//! The state between two events, and one event.

ghost use Rattle.std.specs.Prelude.{◌≡◌, ◌<◌, ◌||◌, ◌^◌, ℕ, false, map, length, replicate, slice_set, OnOk, IsTrue};
ghost use Rattle.std.specs.Prelude.{Some, None};
ghost use Rattle.rendezvous_steps.specs.declared.operations.Word.TheVariants.{Rev, Decide as DecideWord};
ghost use Rattle.rendezvous_steps.specs.declared.steps.How.TheVariants.{Step as StepHow};
ghost use Rattle.rendezvous_steps.specs.declared.steps.Kind.TheVariants.{Online, Offline};
ghost use Rattle.rendezvous_steps.specs.Plan.{threads_from};
ghost use Rattle.rendezvous_steps.specs.Events.{happens, performs, steps, runs, runs_by, nmi_comes, nmi_by};
ghost use Rattle.rendezvous_steps.specs.Events.{nmi_offline, runs_ordinary, latches, opening_running, left_with_latch};
ghost use Rattle.rendezvous_steps.specs.Events.{is_outside, shows_left, shows_halted, shows_withdrawn, shows_held};
ghost use Rattle.rendezvous_steps.specs.StepTable.{operation, opening};
ghost use Rattle.rendezvous_steps.specs.Words.{touched, words_after};
ghost use Rattle.rendezvous_model.specs.RoundStep.{thread_of};
ghost use Rattle.ctl_words.specs.Lists.{has_word, word_of};
ghost use Rattle.ctl_words.specs.Plans.{plan_of, IsSound};
ghost use Rattle.std.specs.List.{range_with_len};
ghost use Rattle.ctl_core.specs.Stands.{local_of};
ghost use Rattle.ctl_core.specs.Moments.{running_of, Fits, owner, unfinished_from, is_poll, waits, rests, is_ready};
ghost use Rattle.ctl_core.specs.Moments.{ready_from};
ghost use Rattle.uc_rendezvous.specs.Ends.{end_in};

use crate::chains::Chains;
use crate::looks;
use crate::stands::Stand;
use arrayvec::ArrayVec;
use ctl_thread::{after, after_linked, next, opening};
use ctl_words::{PlainWords, Plan, Words};
use rendezvous_steps::{End, Event, How, Item, Kind, Local, Op, Phase, What, Word};
use std::alloc::Global;
use std::marker::Model;
use uc_bytes::NoMemory;

/// A rendezvous between two events: the words, each thread's state, whether an NMI is latched for it, and how many
/// threads are unfinished. The plan's threads are linked once, so that a step goes on to the next thread at once.
#[derive(Drop)]
pub struct Moment {
    words: PlainWords,
    locals: Vec<Stand>,
    latched: Vec<bool>,
    unfinished: u16,
    chains: Chains,
}

impl Model for Moment {
    ghost use Rattle.std.specs.Prelude.{map};
    ghost use Rattle.ctl_core.specs.Moments.{State};
    ghost use Rattle.ctl_core.specs.Stands.{local_of};

    ghost Value = { State };

    ghost view = { λ a.
        record {
          words = a.words;
          locals = map local_of a.locals.items;
          latched = a.latched.items;
          unfinished = a.unfinished;
          chains = a.chains;
        } };
}

const NOWHERE: Local = Local {
    phase: Phase::Nothing,
    at: 0,
    polls: 0,
    mine: 0,
};

impl Moment {
    /// The state of no rendezvous. It takes no memory.
    pub fn none(alloc: Global) -> Moment {
        Moment {
            words: PlainWords::none(alloc),
            locals: Vec::new(alloc),
            latched: Vec::new(alloc),
            unfinished: 0,
            chains: Chains::none(alloc),
        }
    }

    /// Becomes the state in which a rendezvous with this plan begins, in the room that there is, and takes memory only
    /// for more. It answers want of memory and nothing else; the state means nothing then.
    pub fn begin(&mut self, plan: &Plan) -> Result<(), NoMemory>
        requires { IsSound plan.now }
        ensures fits { OnOk result (Fits (plan_of plan.now) self.new) }
        ensures opening { OnOk result (running_of self.new ≡ opening_running (plan_of plan.now)) }
    {
        self.words.begin(plan)?;
        fill_openings(&mut self.locals, plan)?;
        fill_latches(&mut self.latched, plan.threads)?;
        self.chains.begin(plan)?;
        looks::revisions_are_small(plan);
        self.unfinished = looks::unfinished(&self.words, plan);
        Ok(())
    }

    /// How many threads are unfinished.
    #[inline(always)]
    pub fn unfinished(&self) -> u16
        ensures { result ≡ self.now.unfinished }
    {
        self.unfinished
    }

    /// The lowest thread that is unfinished.
    pub fn first_unfinished(&self, plan: &Plan) -> Option<u16>
        ensures { result ≡ unfinished_from (plan_of plan.now) (running_of self.now).words 0 }
    {
        looks::first_unfinished(&self.words, plan)
    }

    /// The lowest unfinished thread whose next step is no Poll.
    #[tactic(auto, using(crate::proofs::Searches::ready_search))]
    pub fn first_ready(&self, plan: &Plan) -> Option<u16>
        requires sound { IsSound plan.now }
        requires fits { Fits (plan_of plan.now) self.now }
        ensures { result ≡ ready_from (plan_of plan.now) (running_of self.now) 0 }
    {
        for thread in 0..plan.threads {
            if self.is_ready(plan, thread) {
                return Some(thread);
            }
        }
        None
    }

    /// Whether the thread is unfinished and its next step is no Poll.
    fn is_ready(&self, plan: &Plan, thread: u16) -> bool
        requires sound { IsSound plan.now }
        requires fits { Fits (plan_of plan.now) self.now }
        requires in_range { thread < plan.now.threads }
        ensures { result ≡ is_ready (plan_of plan.now) (running_of self.now) thread }
    {
        !looks::is_finished(&self.words, plan, thread) && !self.polls(plan, thread)
    }

    /// Whether the thread's next step is a Poll.
    fn polls(&self, plan: &Plan, thread: u16) -> bool
        requires sound { IsSound plan.now }
        requires in_range { thread < plan.now.threads }
        ensures { result ≡ is_poll (steps (plan_of plan.now) thread StepHow (running_of self.now)).1 }
    {
        let local = self.local(thread);
        match next(plan, thread, &local, How::Step) {
            Some(op) => {
                let found = self.words.get(op.word());
                let (_, what) = after(plan, thread, &local, How::Step, found);
                matches!(what, What::Poll)
            }
            None => false,
        }
    }

    /// What was decided: 0 while the threads gather.
    pub fn decision(&self) -> u64
        ensures { result ≡ (running_of self.now).words DecideWord }
    {
        self.words.get(Word::Decide)
    }

    /// Fills a table with how each thread came out, by its number.
    pub fn fill_ends(&self, plan: &Plan, ends: &mut ArrayVec<End, 256>)
        requires { IsSound plan.now }
        ensures { ends.new.items
            ≡ map (end_in (plan_of plan.now) (running_of self.now).words) (threads_from (plan_of plan.now) 0) }
    {
        ends.clear();
        'threads: for thread in 0..plan.threads {
            ends.push(looks::end(&self.words, plan, thread));
        }
    }

    /// Fills a table with the running revision of each group.
    pub fn fill_revisions(&self, plan: &Plan, revisions: &mut ArrayVec<u32, 256>)
        requires fits { Fits (plan_of plan.now) self.now }
        ensures { revisions.new.items
            ≡ map (λ g. (running_of self.now).words (Rev g)) (range_with_len 0 (plan_of plan.now).groups) }
    {
        revisions.clear();
        'groups: for group in 0..plan.groups() {
            revisions.push(self.revision(group));
        }
    }

    fn revision(&self, group: u16) -> u32
        requires { (running_of self.now).words (Rev group) < 2 ^ 32 }
        ensures { result ≡ (running_of self.now).words (Rev group) }
    {
        self.words.get(Word::Rev(group)) as u32
    }

    /// One event, by the definition `happens`.
    #[inline(always)]
    #[tactic(auto, unfolding(rendezvous_steps::specs::Events::happens))]
    pub fn event(&mut self, plan: &Plan, event: Event) -> Item
        requires sound { IsSound plan.now }
        requires fits { Fits (plan_of plan.now) self.old }
        requires in_range { thread_of event < plan.now.threads }
        ensures thread { result.thread ≡ thread_of event }
        ensures item { result.what ≡ (happens (plan_of plan.now) event (running_of self.old)).1 }
        ensures state { running_of self.new ≡ (happens (plan_of plan.now) event (running_of self.old)).0 }
        ensures fits { Fits (plan_of plan.now) self.new }
    {
        match event {
            Event::Step(thread) => Item {
                thread,
                what: self.step(plan, thread),
            },
            Event::Timeout(thread) => Item {
                thread,
                what: self.act(plan, thread, How::Timeout),
            },
            Event::Nmi(thread) => Item {
                thread,
                what: self.nmi(plan, thread),
            },
            Event::Run(thread) => Item {
                thread,
                what: self.run(plan, thread),
            },
        }
    }

    /// A step that is no timeout. Most steps of a long wait are polls, which change a count and no more, or those of
    /// threads that are done.
    #[inline(always)]
    fn step(&mut self, plan: &Plan, thread: u16) -> What
        requires sound { IsSound plan.now }
        requires fits { Fits (plan_of plan.now) self.old }
        requires in_range { thread < plan.now.threads }
        ensures item { result ≡ (steps (plan_of plan.now) thread StepHow (running_of self.old)).1 }
        ensures state { running_of self.new ≡ (steps (plan_of plan.now) thread StepHow (running_of self.old)).0 }
        ensures fits { Fits (plan_of plan.now) self.new }
    {
        if self.waits(thread) {
            self.poll(plan, thread)
        } else if self.rests(thread) {
            self.rest(plan, thread)
        } else {
            self.act(plan, thread, How::Step)
        }
    }

    /// Whether the thread waits for the decision or for its release, and that is not there.
    #[inline(always)]
    fn waits(&self, thread: u16) -> bool
        ensures { result ≡ waits ((running_of self.now).locals thread).phase (running_of self.now).words thread }
    {
        match self.local(thread).phase {
            Phase::Waiting => self.words.get(Word::Decide) == 0,
            Phase::SiblingWait | Phase::OfflineHold => self.words.get(Word::Ctrl(thread)) == 0,
            _ => false,
        }
    }

    /// A poll of a thread that waits for what is not there.
    #[inline(always)]
    fn poll(&mut self, plan: &Plan, thread: u16) -> What
        requires waits { IsTrue (waits ((running_of self.old).locals thread).phase (running_of self.old).words thread) }
        requires fits { Fits (plan_of plan.now) self.old }
        requires in_range { thread < plan.now.threads }
        ensures item { result ≡ (steps (plan_of plan.now) thread StepHow (running_of self.old)).1 }
        ensures state { running_of self.new ≡ (steps (plan_of plan.now) thread StepHow (running_of self.old)).0 }
        ensures fits { Fits (plan_of plan.now) self.new }
    {
        let local = self.local(thread);
        let polled = Local {
            polls: local.polls.saturating_add(1),
            ..local
        };
        self.set_local(thread, polled);
        What::Poll
    }

    /// Whether the thread has no operation.
    #[inline(always)]
    fn rests(&self, thread: u16) -> bool
        ensures { result ≡ rests ((running_of self.now).locals thread).phase }
    {
        matches!(
            self.local(thread).phase,
            Phase::Left | Phase::Halted | Phase::Withdrawn | Phase::Nothing
        )
    }

    /// A step of a thread that has no operation.
    #[inline(always)]
    fn rest(&mut self, plan: &Plan, thread: u16) -> What
        requires rests { IsTrue (rests ((running_of self.old).locals thread).phase) }
        requires fits { Fits (plan_of plan.now) self.old }
        requires in_range { thread < plan.now.threads }
        ensures item { result ≡ (steps (plan_of plan.now) thread StepHow (running_of self.old)).1 }
        ensures state { running_of self.new ≡ (steps (plan_of plan.now) thread StepHow (running_of self.old)).0 }
        ensures fits { Fits (plan_of plan.now) self.new }
    {
        self.come_through(plan, thread)
    }

    /// The thread does its operation. Where it has none, a latched NMI comes through once it has left. It is kept apart
    /// from the events that lead to it, since its operation stays in registers only where the whole of it is one
    /// function.
    #[inline(never)]
    fn act(&mut self, plan: &Plan, thread: u16, how: How) -> What
        requires sound { IsSound plan.now }
        requires fits { Fits (plan_of plan.now) self.old }
        requires in_range { thread < plan.now.threads }
        ensures item { result ≡ (steps (plan_of plan.now) thread how (running_of self.old)).1 }
        ensures state { running_of self.new ≡ (steps (plan_of plan.now) thread how (running_of self.old)).0 }
        ensures fits { Fits (plan_of plan.now) self.new }
    {
        let local = self.local(thread);
        match next(plan, thread, &local, how) {
            Some(op) => self.perform(plan, thread, how, &local, op),
            None => self.come_through(plan, thread),
        }
    }

    #[inline(always)]
    fn perform(&mut self, plan: &Plan, thread: u16, how: How, local: &Local, op: Op) -> What
        requires local { local.now ≡ (running_of self.old).locals thread }
        requires next { operation (plan_of plan.now) thread ((running_of self.old).locals thread) how ≡ Some op }
        requires sound { IsSound plan.now }
        requires fits { Fits (plan_of plan.now) self.old }
        requires in_range { thread < plan.now.threads }
        ensures item { result ≡ (performs (plan_of plan.now) thread how (running_of self.old) (Some op)).1 }
        ensures state { running_of self.new
            ≡ (performs (plan_of plan.now) thread how (running_of self.old) (Some op)).0 }
        ensures fits { Fits (plan_of plan.now) self.new }
    {
        let found = self.apply(plan, op);
        let (moved, what) = after_linked(plan, self.chains.links(), thread, local, how, found);
        self.set_local(thread, moved);
        what
    }

    /// A latched NMI comes through once the thread has left.
    fn come_through(&mut self, plan: &Plan, thread: u16) -> What
        requires fits { Fits (plan_of plan.now) self.old }
        requires in_range { thread < plan.now.threads }
        ensures item { result ≡ (runs_by Offline (plan_of plan.now) thread (running_of self.old)).1 }
        ensures state { running_of self.new ≡ (runs_by Offline (plan_of plan.now) thread (running_of self.old)).0 }
        ensures fits { Fits (plan_of plan.now) self.new }
    {
        if self.left_with_latch(thread) {
            self.ordinary(plan, thread)
        } else {
            What::Idle
        }
    }

    /// An attempt to run ordinary code.
    fn run(&mut self, plan: &Plan, thread: u16) -> What
        requires sound { IsSound plan.now }
        requires fits { Fits (plan_of plan.now) self.old }
        requires in_range { thread < plan.now.threads }
        ensures item { result ≡ (runs (plan_of plan.now) thread (running_of self.old)).1 }
        ensures state { running_of self.new ≡ (runs (plan_of plan.now) thread (running_of self.old)).0 }
        ensures fits { Fits (plan_of plan.now) self.new }
    {
        if self.is_held(plan, thread) {
            self.act(plan, thread, How::Step)
        } else {
            self.run_outside(plan, thread, plan.kind_of(thread))
        }
    }

    fn run_outside(&mut self, plan: &Plan, thread: u16, kind: Kind) -> What
        requires fits { Fits (plan_of plan.now) self.old }
        requires in_range { thread < plan.now.threads }
        ensures item { result ≡ (runs_by kind (plan_of plan.now) thread (running_of self.old)).1 }
        ensures state { running_of self.new ≡ (runs_by kind (plan_of plan.now) thread (running_of self.old)).0 }
        ensures fits { Fits (plan_of plan.now) self.new }
    {
        match kind {
            Kind::Online => self.run_online(plan, thread),
            Kind::Offline => self.come_through(plan, thread),
            Kind::Absent => What::Idle,
        }
    }

    fn run_online(&mut self, plan: &Plan, thread: u16) -> What
        requires fits { Fits (plan_of plan.now) self.old }
        requires in_range { thread < plan.now.threads }
        ensures item { result ≡ (runs_by Online (plan_of plan.now) thread (running_of self.old)).1 }
        ensures state { running_of self.new ≡ (runs_by Online (plan_of plan.now) thread (running_of self.old)).0 }
        ensures fits { Fits (plan_of plan.now) self.new }
    {
        if self.has_halted(thread) {
            What::Idle
        } else {
            self.ordinary(plan, thread)
        }
    }

    /// An NMI from elsewhere.
    fn nmi(&mut self, plan: &Plan, thread: u16) -> What
        requires sound { IsSound plan.now }
        requires fits { Fits (plan_of plan.now) self.old }
        requires in_range { thread < plan.now.threads }
        ensures item { result ≡ (nmi_comes (plan_of plan.now) thread (running_of self.old)).1 }
        ensures state { running_of self.new ≡ (nmi_comes (plan_of plan.now) thread (running_of self.old)).0 }
        ensures fits { Fits (plan_of plan.now) self.new }
    {
        if self.is_held(plan, thread) {
            self.latch(plan, thread)
        } else {
            self.nmi_outside(plan, thread, plan.kind_of(thread))
        }
    }

    fn nmi_outside(&mut self, plan: &Plan, thread: u16, kind: Kind) -> What
        requires sound { IsSound plan.now }
        requires fits { Fits (plan_of plan.now) self.old }
        requires in_range { thread < plan.now.threads }
        ensures item { result ≡ (nmi_by kind (plan_of plan.now) thread (running_of self.old)).1 }
        ensures state { running_of self.new ≡ (nmi_by kind (plan_of plan.now) thread (running_of self.old)).0 }
        ensures fits { Fits (plan_of plan.now) self.new }
    {
        match kind {
            Kind::Online => self.run_online(plan, thread),
            Kind::Offline => self.nmi_offline(plan, thread),
            Kind::Absent => What::Idle,
        }
    }

    fn nmi_offline(&mut self, plan: &Plan, thread: u16) -> What
        requires sound { IsSound plan.now }
        requires fits { Fits (plan_of plan.now) self.old }
        requires in_range { thread < plan.now.threads }
        ensures item { result ≡ (nmi_offline (plan_of plan.now) thread (running_of self.old)).1 }
        ensures state { running_of self.new ≡ (nmi_offline (plan_of plan.now) thread (running_of self.old)).0 }
        ensures fits { Fits (plan_of plan.now) self.new }
    {
        if self.is_outside(thread) {
            self.act(plan, thread, How::Nmi)
        } else if self.is_over(plan, thread) {
            self.ordinary(plan, thread)
        } else {
            What::Idle
        }
    }

    fn ordinary(&mut self, plan: &Plan, thread: u16) -> What
        requires fits { Fits (plan_of plan.now) self.old }
        requires in_range { thread < plan.now.threads }
        ensures item { result ≡ (runs_ordinary thread (running_of self.old)).1 }
        ensures state { running_of self.new ≡ (runs_ordinary thread (running_of self.old)).0 }
        ensures fits { Fits (plan_of plan.now) self.new }
    {
        self.set_latched(thread, false);
        What::Ordinary
    }

    fn latch(&mut self, plan: &Plan, thread: u16) -> What
        requires fits { Fits (plan_of plan.now) self.old }
        requires in_range { thread < plan.now.threads }
        ensures item { result ≡ (latches thread (running_of self.old)).1 }
        ensures state { running_of self.new ≡ (latches thread (running_of self.old)).0 }
        ensures fits { Fits (plan_of plan.now) self.new }
    {
        self.set_latched(thread, true);
        What::Latched
    }

    /// Does the operation.
    #[inline(always)]
    fn apply(&mut self, plan: &Plan, op: Op) -> u64
        requires sound { IsSound plan.now }
        requires there { IsTrue (has_word self.old.words (touched op)) }
        requires fits { Fits (plan_of plan.now) self.old }
        requires revisions { (g : ℕ) → words_after (word_of self.old.words) op (Rev g) < 2 ^ 32 }
        ensures found { result ≡ word_of self.old.words (touched op) }
        ensures written { word_of self.new.words ≡ words_after (word_of self.old.words) op }
        ensures same_locals { self.new.locals ≡ self.old.locals }
        ensures same_latched { self.new.latched ≡ self.old.latched }
        ensures fits { Fits (plan_of plan.now) self.new }
    {
        match op {
            Op::Load(word) => self.load(word),
            _ => self.change(plan, op),
        }
    }

    /// What a word holds.
    #[inline(always)]
    fn load(&self, word: Word) -> u64
        ensures { result ≡ word_of self.now.words word }
    {
        self.words.get(word)
    }

    /// Does an operation that may change its word. Where that is a word of a thread, the thread is counted anew.
    #[inline(always)]
    fn change(&mut self, plan: &Plan, op: Op) -> u64
        requires sound { IsSound plan.now }
        requires there { IsTrue (has_word self.old.words (touched op)) }
        requires fits { Fits (plan_of plan.now) self.old }
        requires revisions { (g : ℕ) → words_after (word_of self.old.words) op (Rev g) < 2 ^ 32 }
        ensures found { result ≡ word_of self.old.words (touched op) }
        ensures written { word_of self.new.words ≡ words_after (word_of self.old.words) op }
        ensures same_locals { self.new.locals ≡ self.old.locals }
        ensures same_latched { self.new.latched ≡ self.old.latched }
        ensures fits { Fits (plan_of plan.now) self.new }
    {
        match looks::owner(op.word()) {
            Some(thread) => self.apply_of(plan, thread, op),
            None => self.words.apply(op),
        }
    }

    /// Does an operation on a word of this thread. The thread is counted anew where the word shows an end now and did
    /// not before, or the other way round.
    #[inline(always)]
    fn apply_of(&mut self, plan: &Plan, thread: u16, op: Op) -> u64
        requires sound { IsSound plan.now }
        requires of { owner (touched op) ≡ Some thread }
        requires there { IsTrue (has_word self.old.words (touched op)) }
        requires fits { Fits (plan_of plan.now) self.old }
        requires revisions { (g : ℕ) → words_after (word_of self.old.words) op (Rev g) < 2 ^ 32 }
        ensures found { result ≡ word_of self.old.words (touched op) }
        ensures written { word_of self.new.words ≡ words_after (word_of self.old.words) op }
        ensures same_locals { self.new.locals ≡ self.old.locals }
        ensures same_latched { self.new.latched ≡ self.old.latched }
        ensures fits { Fits (plan_of plan.now) self.new }
    {
        let word = op.word();
        let found = self.load(word);
        if looks::is_end(word, found) == looks::is_end(word, op.written(found)) {
            self.words.apply(op)
        } else {
            self.apply_and_count(plan, thread, op)
        }
    }

    /// The same, and counts the thread anew.
    fn apply_and_count(&mut self, plan: &Plan, thread: u16, op: Op) -> u64
        requires sound { IsSound plan.now }
        requires of { owner (touched op) ≡ Some thread }
        requires there { IsTrue (has_word self.old.words (touched op)) }
        requires fits { Fits (plan_of plan.now) self.old }
        requires revisions { (g : ℕ) → words_after (word_of self.old.words) op (Rev g) < 2 ^ 32 }
        ensures found { result ≡ word_of self.old.words (touched op) }
        ensures written { word_of self.new.words ≡ words_after (word_of self.old.words) op }
        ensures same_locals { self.new.locals ≡ self.old.locals }
        ensures same_latched { self.new.latched ≡ self.old.latched }
        ensures fits { Fits (plan_of plan.now) self.new }
    {
        let before = looks::is_finished(&self.words, plan, thread);
        let found = self.words.apply(op);
        let after = looks::is_finished(&self.words, plan, thread);
        let count = looks::recounted(self.unfinished, before, after);
        self.unfinished = count;
        found
    }

    #[inline(always)]
    fn set_local(&mut self, thread: u16, local: Local)
        requires { thread < length self.old.locals }
        ensures { self.new ≡ record self.old { locals = slice_set self.old.locals thread local } }
    {
        self.locals[usize::from(thread)] = Stand::of(local);
    }

    fn set_latched(&mut self, thread: u16, latched: bool)
        requires { thread < length self.old.latched }
        ensures { self.new ≡ record self.old { latched = slice_set self.old.latched thread latched } }
    {
        self.latched[usize::from(thread)] = latched;
    }

    #[inline(always)]
    fn local(&self, thread: u16) -> Local
        ensures { result ≡ (running_of self.now).locals thread }
    {
        match self.locals.get(usize::from(thread)).copied() {
            Some(stand) => stand.local(),
            None => NOWHERE,
        }
    }

    fn is_outside(&self, thread: u16) -> bool
        ensures { result ≡ is_outside ((running_of self.now).locals thread).phase }
    {
        matches!(self.local(thread).phase, Phase::Outside)
    }

    fn has_halted(&self, thread: u16) -> bool
        ensures { result ≡ shows_halted (running_of self.now).words thread }
    {
        looks::has_halted(&self.words, thread)
    }

    fn is_held(&self, plan: &Plan, thread: u16) -> bool
        ensures { result ≡ shows_held (plan_of plan.now) (running_of self.now).words thread }
    {
        looks::is_held(&self.words, plan, thread)
    }

    fn is_over(&self, plan: &Plan, thread: u16) -> bool
        ensures { let words = (running_of self.now).words in
            result ≡ (shows_left words thread || shows_withdrawn (plan_of plan.now) words thread) }
    {
        looks::is_over(&self.words, plan, thread)
    }

    fn left_with_latch(&self, thread: u16) -> bool
        ensures { result ≡ left_with_latch thread (running_of self.now) }
    {
        looks::has_left(&self.words, thread)
            && self
                .latched
                .get(usize::from(thread))
                .copied()
                .unwrap_or(false)
    }
}

/// Where each thread stands when a rendezvous begins.
fn fill_openings(stands: &mut Vec<Stand>, plan: &Plan) -> Result<(), NoMemory>
    requires { IsSound plan.now }
    ensures { let plan = plan_of plan.now in
        OnOk result (map local_of stands.new.items ≡ map (opening plan) (threads_from plan 0)) }
{
    stands.clear();
    for thread in 0..plan.threads {
        stands.push(Stand::of(opening(plan, thread)))?;
    }
    Ok(())
}

fn fill_latches(latched: &mut Vec<bool>, threads: u16) -> Result<(), NoMemory>
    ensures { OnOk result (latched.new.items ≡ replicate threads false) }
{
    latched.clear();
    latched.resize(usize::from(threads), false)?;
    Ok(())
}
