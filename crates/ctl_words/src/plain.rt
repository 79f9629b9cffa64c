//! Control words in plain lists.

ghost use Rattle.std.specs.Prelude.{◌≡◌, ◌*◌, IfOk, OnOk, IsTrue, replicate, slice_index};
ghost use Rattle.std.specs.Prelude.{◌<◌};
ghost use Rattle.rendezvous_steps.specs.Words.{opening_words};
ghost use Rattle.ctl_words.specs.Plans.{plan_of, IsSound};
ghost use Rattle.ctl_words.specs.Places.{is_word};
ghost use Rattle.ctl_words.specs.Lists.{has_word, word_of, with_word};

use crate::plans::Plan;
use crate::shared::Words;
use rendezvous_steps::{Op, Word};
use std::alloc::Global;
use std::marker::Model;
use uc_bytes::NoMemory;

/// The control words of a plan, for one thread that does all the operations.
#[derive(Drop)]
pub struct PlainWords {
    arrive: u64,
    off_in: u64,
    decide: u64,
    mode: Vec<u64>,
    ctrl: Vec<u64>,
    nmi: Vec<u64>,
    rev: Vec<u64>,
    res: Vec<u64>,
}

impl Model for PlainWords {
    ghost use Rattle.ctl_words.specs.Lists.{Lists};

    ghost Value = { Lists };

    ghost view = { λ a.
        record {
          arrive = a.arrive;
          off_in = a.off_in;
          decide = a.decide;
          mode = a.mode.items;
          ctrl = a.ctrl.items;
          nmi = a.nmi.items;
          rev = a.rev.items;
          res = a.res.items;
        } };
}

impl PlainWords {
    /// The words of the plan with what they hold when a rendezvous begins. It answers want of memory and nothing else.
    pub fn new(alloc: Global, plan: &Plan) -> Result<PlainWords, NoMemory>
        requires { IsSound plan.now }
        ensures words { IfOk result (λ words. has_word words ≡ is_word (plan_of plan.now)) }
        ensures opening { IfOk result (λ words. word_of words ≡ opening_words (plan_of plan.now)) }
    {
        let mut words = PlainWords::none(alloc);
        words.begin(plan)?;
        Ok(words)
    }

    /// The words of no plan. It takes no memory.
    pub fn none(alloc: Global) -> PlainWords {
        PlainWords {
            arrive: 0,
            off_in: 0,
            decide: 0,
            mode: Vec::new(alloc),
            ctrl: Vec::new(alloc),
            nmi: Vec::new(alloc),
            rev: Vec::new(alloc),
            res: Vec::new(alloc),
        }
    }

    /// Becomes the words of the plan with what they hold when a rendezvous begins, in the room that there is, and takes
    /// memory only for more. It answers want of memory and nothing else; what the words hold means nothing then.
    pub fn begin(&mut self, plan: &Plan) -> Result<(), NoMemory>
        requires { IsSound plan.now }
        ensures words { OnOk result (has_word self.new ≡ is_word (plan_of plan.now)) }
        ensures opening { OnOk result (word_of self.new ≡ opening_words (plan_of plan.now)) }
    {
        let threads = usize::from(plan.threads);
        fill_zeros(&mut self.mode, threads)?;
        fill_zeros(&mut self.ctrl, threads)?;
        fill_zeros(&mut self.nmi, threads)?;
        fill_revisions(&mut self.rev, plan)?;
        fill_zeros(&mut self.res, plan.primary.len())?;
        self.arrive = u64::from(plan.online());
        self.off_in = 0;
        self.decide = 0;
        Ok(())
    }

    /// What a word holds; a word that the plan has not holds 0.
    #[inline(always)]
    pub fn get(&self, word: Word) -> u64
        ensures { result ≡ word_of self.now word }
    {
        match word {
            Word::Arrive => self.arrive,
            Word::OffIn => self.off_in,
            Word::Decide => self.decide,
            Word::Mode(thread) => entry(&self.mode, thread),
            Word::Ctrl(thread) => entry(&self.ctrl, thread),
            Word::Nmi(thread) => entry(&self.nmi, thread),
            Word::Rev(group) => entry(&self.rev, group),
            Word::Res(group) => entry(&self.res, group),
        }
    }

    #[inline(always)]
    fn set(&mut self, word: Word, value: u64)
        requires { IsTrue (has_word self.old word) }
        ensures { self.new ≡ with_word self.old word value }
    {
        match word {
            Word::Arrive => self.arrive = value,
            Word::OffIn => self.off_in = value,
            Word::Decide => self.decide = value,
            Word::Mode(thread) => self.mode[usize::from(thread)] = value,
            Word::Ctrl(thread) => self.ctrl[usize::from(thread)] = value,
            Word::Nmi(thread) => self.nmi[usize::from(thread)] = value,
            Word::Rev(group) => self.rev[usize::from(group)] = value,
            Word::Res(group) => self.res[usize::from(group)] = value,
        }
    }
}

#[inline(always)]
fn entry(words: &Vec<u64>, at: u16) -> u64
    ensures { result ≡ slice_index words.now.items at }
{
    words.get(usize::from(at)).copied().unwrap_or(0)
}

fn fill_zeros(words: &mut Vec<u64>, count: usize) -> Result<(), NoMemory>
    ensures { OnOk result (words.new.items ≡ replicate count 0) }
{
    words.clear();
    words.resize(count, 0)?;
    Ok(())
}

fn fill_revisions(words: &mut Vec<u64>, plan: &Plan) -> Result<(), NoMemory>
    ensures { OnOk result (words.new.items ≡ plan.now.rev0.items) }
{
    words.clear();
    for revision in plan.rev0.as_slice() {
        words.push(u64::from(*revision))?;
    }
    Ok(())
}

impl Words for PlainWords {
    ghost has = { has_word };

    ghost held = { word_of };

    #[inline(always)]
    fn apply(&mut self, op: Op) -> u64 {
        let word = op.word();
        let found = self.get(word);
        self.set(word, op.written(found));
        found
    }
}
