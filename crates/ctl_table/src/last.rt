//! The words of a bay that is closed, read into an outcome.

ghost use Rattle.std.specs.Prelude.{◌≡◌, ◌==◌, IsTrue};
ghost use Rattle.std.specs.Mem.Slots.{IsFull, slots_items, slots_len};
ghost use Rattle.rendezvous_steps.specs.declared.operations.Word.TheVariants.{Mode, Rev};
ghost use Rattle.ctl_words.specs.Plans.{plan_of, IsSound};
ghost use Rattle.ctl_words.specs.Places.{word_count, is_word};
ghost use Rattle.uc_rendezvous.specs.Ends.{end_in};
ghost use Rattle.ctl_table.specs.Words.{words_of, RevisionsAre};

use crate::exact_outcomes::ExactOutcome;
use crate::exact_tables::ExactTable;
use atomic_table::Closed as Emptied;
use ctl_words::Plan;
use rendezvous_steps::{End, Kind, ThreadResult, Word};
use std::alloc::Global;

/// The words at the end. Each group has its first revision, or its offer.
#[derive(Clone, Copy)]
pub struct Last<'a> {
    pub plan: &'a Plan,
    pub words: &'a Emptied<(), Global>,
    ghost sound: { IsSound plan.now },
    ghost full: { IsFull words.now.words },
    ghost sized: { slots_len words.now.words ≡ word_count (plan_of plan.now) },
    ghost revisions: { RevisionsAre (plan_of plan.now) (words_of (plan_of plan.now) (slots_items words.now.words)) },
}

impl Last<'_> {
    ghost use Rattle.std.specs.Prelude.{◌≤◌, vec_capacity};
    ghost use Rattle.ctl_table.specs.Exact.{HasRoom};
    ghost use Rattle.ctl_table.specs.Lasts.{plan_at, words_at, ends_read, revisions_read, OutcomeReads};

    /// Makes an outcome that which the words show. It takes no memory.
    pub fn fill(&self, outcome: &mut ExactOutcome)
        requires { HasRoom (plan_at self.now) outcome.old }
        ensures { OutcomeReads (plan_at self.now) (words_at self.now) outcome.new }
    {
        outcome.decide = self.word(Word::Decide);
        self.fill_ends(&mut outcome.ends);
        self.fill_revisions(&mut outcome.revs);
    }

    fn word(&self, word: Word) -> u64
        requires { IsTrue (is_word (plan_at self.now) word) }
        ensures { result ≡ words_at self.now word }
    {
        self.words.word(self.plan.place(word) as usize)
    }

    /// Gives a table the end of each thread. What it held is let go.
    fn fill_ends(&self, ends: &mut ExactTable<End>)
        requires { (plan_at self.now).threads ≤ vec_capacity ends.old.entries }
        ensures { ends.new.entries.items ≡ ends_read (plan_at self.now) (words_at self.now) }
    {
        ends.clear();
        for thread in 0..self.plan.threads {
            ends.push(self.end(thread));
        }
    }

    fn end(&self, thread: u16) -> End
        requires { IsTrue (is_word (plan_at self.now) (Mode thread)) }
        ensures { result ≡ end_in (plan_at self.now) (words_at self.now) thread }
    {
        let mode = self.word(Word::Mode(thread));
        if self.word(Word::Ctrl(thread)) == 3 {
            End::Halted
        } else if mode >= 8 {
            End::Left(ThreadResult::from_number(mode - 8))
        } else {
            match self.plan.kind_of(thread) {
                Kind::Offline if self.word(Word::Nmi(thread)) == 3 => End::Withdrawn,
                Kind::Online | Kind::Offline => End::Unfinished,
                Kind::Absent => End::Absent,
            }
        }
    }

    /// Gives a table the revision of each group. What it held is let go.
    fn fill_revisions(&self, revisions: &mut ExactTable<u32>)
        requires { (plan_at self.now).groups ≤ vec_capacity revisions.old.entries }
        ensures { revisions.new.entries.items ≡ revisions_read (plan_at self.now) (words_at self.now) }
    {
        revisions.clear();
        for group in 0..self.plan.groups() {
            revisions.push(self.revision(group));
        }
    }

    fn revision(&self, group: u16) -> u32
        requires { IsTrue (is_word (plan_at self.now) (Rev group)) }
        ensures { result ≡ words_at self.now (Rev group) }
    {
        let first = self.plan.rev0_of(group);
        if self.word(Word::Rev(group)) == u64::from(first) {
            first
        } else {
            self.plan.offer_of(group).unwrap_or(first)
        }
    }
}
