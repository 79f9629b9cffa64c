ghost use Rattle.std.specs.Prelude.{◌≡◌, ◌<◌, ◌≤◌, [], length, All, MatchResult, Ok, Err};
ghost use Rattle.uc_topology.specs.Grammar.{same_facts};

use crate::fault::TopoCause;
use arrayvec::ArrayVec;
use std::marker::Model;

/// What all cores of a group share: processor signature, processor flags and the revision of the firmware.
#[derive(Clone, Copy, Debug, Default, PartialEq, Eq)]
pub struct GroupFacts {
    pub sig: u32,
    pub flags: u32,
    pub rev: u32,
}

/// A core: its group, and its facts.
#[derive(Clone, Copy, Debug, Default, PartialEq, Eq)]
pub struct Core {
    pub group: u16,
    pub facts: GroupFacts,
}

/// The cores and threads that lines state, with what is looked up again: the group of each thread, and the first
/// core of each group. A contract sees the cores, and the core of each thread.
#[derive(Debug, Drop)]
pub struct Tables {
    cores: ArrayVec<Core, 256>,
    threads: ArrayVec<u16, 256>,
    thread_groups: ArrayVec<u16, 256>,
    firsts: ArrayVec<u16, 256>,
}

impl Model for Tables {
    ghost use Rattle.uc_topology.specs.Stated.{Stated, AreTables};

    ghost Value = { Stated };

    ghost view = { λ tables. record { cores = tables.cores.items; threads = tables.threads.items } };

    ghost invariant = { λ tables. AreTables tables.cores.items tables.threads.items tables.thread_groups.items tables.firsts.items };
}

impl Tables {
    ghost use Rattle.uc_topology.specs.Stated.{Stated, AreGroups, group_count, group_facts, thread_groups};
    ghost use Rattle.uc_topology.specs.Grammar.{next_core, next_thread};

    pub fn new() -> Self
        ensures { result ≡ record { cores = []; threads = [] } }
    {
        Tables {
            cores: ArrayVec::new(),
            threads: ArrayVec::new(),
            thread_groups: ArrayVec::new(),
            firsts: ArrayVec::new(),
        }
    }

    /// Takes the core that a line states: the next one, of the next group or of one that stands and agrees.
    pub fn add_core(&mut self, number: u32, group: u32, facts: GroupFacts) -> Result<(), TopoCause>
        ensures { let next = next_core self.old number (record { group = group; facts = facts }) in MatchResult result (λ _. next ≡ Ok self.new) (λ cause. next ≡ Err cause) }
    {
        let cores = self.cores.len();
        let groups = self.firsts.len();
        let place = group as usize;
        if cores >= 256 {
            return Err(TopoCause::TooMany);
        }
        if number as usize != cores {
            return Err(TopoCause::Order);
        }
        if place > groups {
            return Err(TopoCause::Order);
        }
        let core = Core {
            group: group as u16,
            facts,
        };
        if place == groups {
            self.firsts.push(number as u16);
            self.cores.push(core);
            return Ok(());
        }
        if !agree(&facts, &self.cores[self.firsts[place] as usize].facts) {
            return Err(TopoCause::Disagree);
        }
        self.cores.push(core);
        Ok(())
    }

    /// Takes the thread that a line states: the next one, on a core that stands.
    pub fn add_thread(&mut self, number: u32, core: u32) -> Result<(), TopoCause>
        ensures { let next = next_thread self.old number core in MatchResult result (λ _. next ≡ Ok self.new) (λ cause. next ≡ Err cause) }
    {
        let place = core as usize;
        if self.threads.len() >= 256 {
            return Err(TopoCause::TooMany);
        }
        if number as usize != self.threads.len() {
            return Err(TopoCause::Order);
        }
        if place >= self.cores.len() {
            return Err(TopoCause::NoCore);
        }
        self.thread_groups.push(self.cores[place].group);
        self.threads.push(core as u16);
        Ok(())
    }

    pub fn threads(&self) -> &[u16]
        ensures value { result.now ≡ self.now.threads }
        ensures size { length self.now.threads ≤ 256 }
        ensures groups { AreGroups self.now }
    {
        &self.threads
    }

    pub fn thread_groups(&self) -> &[u16]
        ensures { result.now ≡ thread_groups self.now }
    {
        &self.thread_groups
    }

    pub fn cores(&self) -> &[Core]
        ensures value { result.now ≡ self.now.cores }
        ensures size { length self.now.cores ≤ 256 }
        ensures in_groups { All (λ core. core.group < group_count self.now.cores) self.now.cores }
    {
        &self.cores
    }

    pub fn groups(&self) -> u16
        ensures value { result ≡ group_count self.now.cores }
        ensures few { group_count self.now.cores ≤ 256 }
    {
        self.firsts.len() as u16
    }

    pub fn facts(&self, group: u16) -> GroupFacts
        requires { group < group_count self.now.cores }
        ensures { result ≡ group_facts self.now.cores group }
    {
        self.cores[self.firsts[group as usize] as usize].facts
    }

    pub fn copy(&self) -> Tables
        ensures { result ≡ self.now }
    {
        Tables {
            cores: copied(&self.cores),
            threads: copied(&self.threads),
            thread_groups: copied(&self.thread_groups),
            firsts: copied(&self.firsts),
        }
    }
}

fn agree(one: &GroupFacts, other: &GroupFacts) -> bool
    ensures { result ≡ same_facts one.now other.now }
{
    one.sig == other.sig && one.flags == other.flags && one.rev == other.rev
}

/// The same elements once more.
pub fn copied<T: Copy + Default + Drop>(from: &ArrayVec<T, 256>) -> ArrayVec<T, 256>
    ensures { result.items ≡ from.now.items }
{
    let mut copy = ArrayVec::new();
    copy.try_extend_from_slice(from).unwrap();
    copy
}
