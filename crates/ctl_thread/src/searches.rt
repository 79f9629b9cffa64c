//! Threads in ascending order.

ghost use Rattle.std.specs.Prelude.{◌≡◌, ◌==◌, ◌+◌, ◌<◌, ◌≤◌, ℕ, Option, Some, false, MatchOption};
ghost use Rattle.std.specs.List.{list_any, slice_get};
ghost use Rattle.rendezvous_steps.specs.Plan.{is_sibling, offline_from, sibling_from};
ghost use Rattle.rendezvous_steps.specs.Plan.{offline_count};
ghost use Rattle.ctl_words.specs.Plans.{plan_of};

use crate::turns::Turn;
use ctl_words::Plan;

impl Turn<'_> {
    /// How many threads are Offline.
    #[inline(always)]
    pub fn offline(&self) -> u16
        ensures { result ≡ offline_count (plan_of self.now.plan.now) }
    {
        match self.links.offline_count {
            Some(count) => count,
            None => self.plan.offline(),
        }
    }

    /// The first Offline thread from `start` on.
    #[inline(always)]
    pub fn first_offline(&self, start: u32) -> Option<u16>
        ensures { result ≡ offline_from (plan_of self.now.plan.now) start }
    {
        match entry(self.links.offline, start) {
            Some(next) => next,
            None => first_offline(self.plan, start),
        }
    }

    /// The first other thread of the thread's group that takes part. A primary is the lowest of its group, so for it
    /// that is the next.
    #[inline(always)]
    pub fn first_sibling(&self) -> Option<u16>
        ensures { result ≡ sibling_from (plan_of self.now.plan.now) self.now.thread 0 }
    {
        let thread = self.thread;
        let is_primary = thread == self.plan.primary_of(self.plan.group_of(thread));
        match entry(self.links.members, u32::from(thread)) {
            Some(next) if is_primary => next,
            _ => first_sibling(self.plan, thread, 0),
        }
    }

    /// The first other thread of the thread's group that takes part and comes after the one that the loop is at, which
    /// is one of the group too.
    #[inline(always)]
    pub fn next_sibling(&self) -> Option<u16>
        ensures { result ≡ sibling_from (plan_of self.now.plan.now) self.now.thread (self.now.local.now.at + 1) }
    {
        let (thread, at) = (self.thread, self.local.at);
        let (group, other) = (self.plan.group_of(thread), self.plan.group_of(at));
        match entry(self.links.members, u32::from(at)) {
            Some(next) if thread <= at && other == group => next,
            _ => first_sibling(self.plan, thread, u32::from(at) + 1),
        }
    }
}

/// What a table has for a thread, if it goes so far.
#[inline(always)]
fn entry(table: &[Option<u16>], thread: u32) -> Option<Option<u16>>
    ensures { result ≡ slice_get table.now thread }
{
    table.get(thread as usize).copied()
}

/// The first Offline thread from `start` on.
#[tactic(auto, using(crate::proofs::Ascending::offline_search))]
fn first_offline(plan: &Plan, start: u32) -> Option<u16>
    ensures { result ≡ offline_from (plan_of plan.now) start }
{
    for thread in start..u32::from(plan.threads) {
        let thread = thread as u16;
        if plan.kind_of(thread).is_offline() {
            return Some(thread);
        }
    }
    None
}

/// The first other thread of `of`'s group from `start` on that takes part. Where 16 threads are of other groups, they
/// are passed over at once.
#[tactic(auto, using(crate::proofs::Ascending::sibling_search))]
fn first_sibling(plan: &Plan, of: u16, start: u32) -> Option<u16>
    ensures { result ≡ sibling_from (plan_of plan.now) of start }
{
    let threads = plan.threads;
    let mut from = start;
    while from < u32::from(threads) {
        let found = sibling_near(plan, of, from);
        if found.is_some() {
            return found;
        }
        from += 16;
    }
    None
}

/// The first sibling of `of` that is one of 16 threads.
fn sibling_near(plan: &Plan, of: u16, from: u32) -> Option<u16>
    requires { from < plan.now.threads }
    ensures { MatchOption result
        (sibling_from (plan_of plan.now) of from ≡ sibling_from (plan_of plan.now) of (from + 16))
        (λ sibling. sibling_from (plan_of plan.now) of from ≡ Some sibling) }
{
    if has_group_near(plan, plan.group_of(of), from) {
        sibling_among(plan, of, from)
    } else {
        None
    }
}

/// The same, thread by thread.
#[tactic(auto, using(crate::proofs::Ascending::sibling_search))]
fn sibling_among(plan: &Plan, of: u16, from: u32) -> Option<u16>
    requires { from < plan.now.threads }
    ensures { MatchOption result
        (sibling_from (plan_of plan.now) of from ≡ sibling_from (plan_of plan.now) of (from + 16))
        (λ sibling. sibling_from (plan_of plan.now) of from ≡ Some sibling) }
{
    for thread in from..u32::from(plan.threads).min(from + 16) {
        let thread = thread as u16;
        if is_sibling(plan, of, thread) {
            return Some(thread);
        }
    }
    None
}

/// Whether one of 16 threads may be of the group. Near the last thread the answer is that it may.
fn has_group_near(plan: &Plan, group: u16, from: u32) -> bool
    requires { from < plan.now.threads }
    ensures { result ≡ false → (k : ℕ) → from ≤ k → k < from + 16 → ((plan_of plan.now).group k == group) ≡ false }
{
    let groups = plan.group.as_slice();
    let from = from as usize;
    if groups.len() < from + 16 {
        return true;
    }
    holds(&groups[from..from + 16], group)
}

/// Whether a number is one of others. All of them are looked at, so that several can be at once.
fn holds(numbers: &[u16], number: u16) -> bool
    ensures { result ≡ list_any (λ other. other == number) numbers.now }
{
    let mut held = false;
    for other in numbers {
        held |= *other == number;
    }
    held
}

fn is_sibling(plan: &Plan, of: u16, thread: u16) -> bool
    ensures { result ≡ is_sibling (plan_of plan.now) of thread }
{
    plan.group_of(thread) == plan.group_of(of) && thread != of && !plan.kind_of(thread).is_absent()
}
