//! Where a thread goes next.

ghost use Rattle.std.specs.Prelude.{◌≡◌, Option};
ghost use Rattle.rendezvous_steps.specs.StepTable as table;
ghost use Rattle.ctl_words.specs.Plans.{plan_of};

use crate::turns::Turn;
use ctl_words::Plan;
use rendezvous_steps::{Local, Phase, ThreadResult};

/// On to a phase.
#[inline(always)]
pub fn to(local: &Local, phase: Phase) -> Local
    ensures { result ≡ table.to local.now phase }
{
    Local { phase, ..*local }
}

/// On to a phase in which polls are counted.
#[inline(always)]
pub fn wait_in(local: &Local, phase: Phase) -> Local
    ensures { result ≡ table.wait_in local.now phase }
{
    Local {
        phase,
        polls: 0,
        ..*local
    }
}

/// On to a phase, with a result for the leave.
#[inline(always)]
pub fn with_result(local: &Local, mine: ThreadResult, phase: Phase) -> Local
    ensures { result ≡ table.with_result local.now (table.number_of mine) phase }
{
    Local {
        phase,
        mine: mine.number(),
        ..*local
    }
}

/// One poll more, up to the greatest count.
#[inline(always)]
pub fn polled(local: &Local) -> Local
    ensures { result ≡ table.polled local.now }
{
    Local {
        polls: local.polls.saturating_add(1),
        ..*local
    }
}

/// A loop's phase at the thread that was found, or else the phase after the loop.
#[inline(always)]
pub fn loop_at(local: &Local, phase: Phase, found: Option<u16>, after: Phase) -> Local
    ensures { result ≡ table.loop_at local.now phase found after }
{
    match found {
        Some(at) => Local {
            phase,
            at,
            ..*local
        },
        None => to(local, after),
    }
}

/// The kick of this thread; without one thread 0 waits for the kicked.
#[inline(always)]
pub fn kick_at(local: &Local, found: Option<u16>) -> Local
    ensures { result ≡ table.kick_at local.now found }
{
    match found {
        Some(at) => loop_at(local, Phase::Kicking, Some(at), Phase::OfflineWait),
        None => wait_in(local, Phase::OfflineWait),
    }
}

/// The go path: a primary reads its group's revision, any other thread waits for its primary.
#[inline(always)]
pub fn go_path(plan: &Plan, thread: u16, local: &Local) -> Local
    ensures { result ≡ table.go_path (plan_of plan.now) thread local.now }
{
    if thread == plan.primary_of(plan.group_of(thread)) {
        to(local, Phase::Reading)
    } else {
        wait_in(local, Phase::SiblingWait)
    }
}

/// The kick of this thread is taken back; without one the thread leaves.
#[inline(always)]
pub fn withdraw_at(local: &Local, found: Option<u16>) -> Local
    ensures { result ≡ table.withdraw_at local.now found }
{
    loop_at(local, Phase::Withdrawing, found, Phase::Leaving)
}

/// This sibling is freed; without one the thread leaves.
#[inline(always)]
pub fn free_at(local: &Local, found: Option<u16>) -> Local
    ensures { result ≡ table.free_at local.now found }
{
    loop_at(local, Phase::Freeing, found, Phase::Leaving)
}

impl Turn<'_> {
    /// The drop path: thread 0 takes back the kicks, any other thread leaves.
    #[inline(always)]
    pub fn drop_path(&self) -> Local
        ensures { result ≡ table.drop_path (plan_of self.now.plan.now) self.now.thread self.now.local.now }
    {
        let dropped = with_result(self.local, ThreadResult::Timeout, Phase::Leaving);
        if self.thread == 0 {
            withdraw_at(&dropped, self.first_offline(0))
        } else {
            dropped
        }
    }
}
