//! The free blocks as a list of runs: ascending, none empty, and no two touching.
ghost use Rattle.std.specs.Prelude.{◌≡◌, ◌<◌, ◌≤◌, ◌+◌, ◌/◌, ℕ, true, false, nat_lt, None, max, fold, MatchOption};
ghost use Rattle.std.specs.Prelude.{IfOk, vec_len, vec_capacity};
ghost use Rattle.std.specs.List.{position_or_len};
ghost use Rattle.patch_pool.specs.Free.{IsTaken, IsGivenBack, IsLongest, is_within, lowest_of};
ghost use Rattle.patch_pool.specs.Runs.{AllEnd, AreSpaced, AreSpaced-prop, IsFit, is_in, join_at, settle};

use std::alloc::Global;
use uc_bytes::NoMemory;

/// Free blocks in a row: the first, and how many there are.
#[derive(Clone, Copy, Debug, PartialEq, Eq)]
pub struct Run {
    pub first: u32,
    pub len: u32,
}

impl Run {
    /// The block behind the last one.
    fn end(&self) -> u32
        requires { self.now.first + self.now.len ≤ 65536 }
        ensures { result ≡ self.now.first + self.now.len }
    {
        self.first + self.len
    }
}

/// The free runs of a region of so many blocks. Between two runs a block is taken, so there is at most one run for two
/// blocks. The list has room for one more, which a run has to itself until it is joined with its neighbours.
#[derive(Debug, Drop)]
pub struct Runs {
    pub blocks: u32,
    pub runs: Vec<Run>,
    ghost few: { blocks ≤ 65536 },
    ghost spaced: { AreSpaced 0 blocks runs.items } by { AreSpaced-prop 0 blocks runs.items },
    ghost room: { (blocks + 1) / 2 + 1 ≤ vec_capacity runs },
}

impl Runs {
    /// All blocks of a region, as one run.
    pub fn new(alloc: Global, blocks: u32) -> Result<Runs, NoMemory>
        requires some { 0 < blocks }
        requires few { blocks ≤ 65536 }
        ensures all { IfOk result (λ free. (block : ℕ) → is_in free.runs.items block ≡ is_within 0 blocks block) }
        ensures size { IfOk result (λ free. free.blocks ≡ blocks) }
    {
        let mut runs = Vec::with_capacity(alloc, (blocks as usize + 1) / 2 + 1)?;
        runs.push_reserved(Run {
            first: 0,
            len: blocks,
        });
        Ok(Runs { blocks, runs })
    }

    /// The index of the first run that has so many blocks: it begins where the lowest run of so many free blocks does.
    fn first_fit(&self, needed: u32) -> Option<usize>
        requires { 0 < needed }
        ensures { MatchOption result (lowest_of (is_in self.now.runs.items) self.now.blocks needed ≡ None)
            (λ at. IsFit self.now.runs.items self.now.blocks needed at) }
    {
        self.runs.iter().position(|run| run.len >= needed)
    }

    /// Takes so many blocks at the begin of the lowest run that has them, and answers the first.
    pub fn take(&mut self, needed: u32) -> Option<u32>
        requires { 0 < needed }
        ensures taken { IsTaken (is_in self.old.runs.items) (is_in self.new.runs.items) self.old.blocks needed result }
        ensures size { self.new.blocks ≡ self.old.blocks }
    {
        let Some(at) = self.first_fit(needed) else {
            return None;
        };
        let run = self.runs[at];
        if run.len == needed {
            self.runs.remove(at);
        } else {
            self.runs[at] = Run {
                first: run.first + needed,
                len: run.len - needed,
            };
        }
        Some(run.first)
    }

    /// The index of the first run behind a block, or the number of runs.
    fn place(&self, first: u32) -> usize
        ensures { result ≡ position_or_len (λ run. nat_lt first run.first) self.now.runs.items }
    {
        self.runs
            .iter()
            .take_while(|run| run.first <= first)
            .count()
    }

    /// Makes blocks free that are not, and joins them with the runs on both sides.
    pub fn give_back(&mut self, first: u32, len: u32)
        requires some { 0 < len }
        requires inside { first + len ≤ self.old.blocks }
        requires taken { (block : ℕ) → is_within first len block ≡ true → is_in self.old.runs.items block ≡ false }
        ensures free { IsGivenBack (is_in self.old.runs.items) (is_in self.new.runs.items) first len }
        ensures size { self.new.blocks ≡ self.old.blocks }
    {
        let at = self.place(first);
        self.runs.insert(at, Run { first, len }).unwrap();
        settle(&mut self.runs, at);
    }

    /// How many blocks the longest run has.
    pub fn longest(&self) -> u32
        ensures { IsLongest (is_in self.now.runs.items) self.now.blocks result }
    {
        self.most()
    }

    /// The length of the longest run, 0 where there is none.
    fn most(&self) -> u32
        ensures { result ≡ fold (λ longest run. max longest run.len) 0 self.now.runs.items }
    {
        self.runs
            .iter()
            .fold(0, |longest, run| longest.max(run.len))
    }
}

/// Joins a run with the next and with the one before, where they touch.
fn settle(runs: &mut Vec<Run>, at: usize)
    requires within { at < vec_len runs.old }
    requires few { AllEnd 65536 runs.old.items }
    ensures settled { runs.new.items ≡ settle runs.old.items at }
    ensures capacity { vec_capacity runs.new ≡ vec_capacity runs.old }
{
    join(runs, at);
    if at > 0 {
        join(runs, at - 1);
    }
}

/// Makes one run of a run and the next where they touch.
fn join(runs: &mut Vec<Run>, at: usize)
    requires within { at < vec_len runs.old }
    requires few { AllEnd 65536 runs.old.items }
    ensures joined { runs.new.items ≡ join_at runs.old.items at }
    ensures capacity { vec_capacity runs.new ≡ vec_capacity runs.old }
{
    if at + 1 >= runs.len() {
        return;
    }
    let run = runs[at];
    let next = runs[at + 1];
    if run.end() == next.first {
        runs[at] = Run {
            first: run.first,
            len: run.len + next.len,
        };
        runs.remove(at + 1);
    }
}
