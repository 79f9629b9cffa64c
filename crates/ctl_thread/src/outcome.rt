//! What comes of a step.

ghost use Rattle.std.specs.Prelude.{◌≡◌, ◌<◌, IsSome};
ghost use Rattle.rendezvous_steps.specs.StepTable.{after, operation};
ghost use Rattle.ctl_words.specs.Plans.{plan_of, IsSound};
ghost use Rattle.ctl_thread.specs.Links.{Linked};

use crate::links::Links;
use crate::turns::Turn;
use ctl_words::Plan;
use rendezvous_steps::{How, Local, Phase, What};

/// The thread's next state and the item, where its operation found `found` in its word.
#[inline(always)]
pub fn after(plan: &Plan, thread: u16, local: &Local, how: How, found: u64) -> (Local, What)
    requires sound { IsSound plan.now }
    requires in_range { thread < plan.now.threads }
    requires has_operation { IsSome (operation (plan_of plan.now) thread local.now how) }
    ensures { result ≡ after (plan_of plan.now) thread local.now how found }
{
    after_linked(plan, Links::none(), thread, local, how, found)
}

/// The same, with tables of the threads that come next.
#[inline(always)]
#[tactic(auto, unfolding(rendezvous_steps::specs::StepTable::after))]
pub fn after_linked(
    plan: &Plan,
    links: Links<'_>,
    thread: u16,
    local: &Local,
    how: How,
    found: u64,
) -> (Local, What)
    requires sound { IsSound plan.now }
    requires linked { Linked (plan_of plan.now) links }
    requires in_range { thread < plan.now.threads }
    requires has_operation { IsSome (operation (plan_of plan.now) thread local.now how) }
    ensures { result ≡ after (plan_of plan.now) thread local.now how found }
{
    let turn = Turn {
        plan,
        links,
        thread,
        local,
        how,
        found,
    };
    match local.phase {
        Phase::Outside => turn.outside(),
        Phase::Kicking => turn.kicking(),
        Phase::OfflineWait => turn.offline_wait(),
        Phase::Arriving => turn.arriving(),
        Phase::Deciding => turn.deciding(),
        Phase::Waiting => turn.waiting(),
        Phase::Reading => turn.reading(),
        Phase::Beginning => turn.beginning(),
        Phase::Writing => turn.writing(),
        Phase::Checking => turn.checking(),
        Phase::Reporting => turn.reporting(),
        Phase::Freeing => turn.freeing(),
        Phase::SiblingWait => turn.sibling_wait(),
        Phase::SiblingCheck => turn.sibling_check(),
        Phase::SiblingCopy => turn.sibling_copy(),
        Phase::Withdrawing => turn.withdrawing(),
        Phase::Releasing => turn.releasing(),
        Phase::OfflineCount => turn.offline_count(),
        Phase::OfflineHold => turn.offline_hold(),
        Phase::Leaving => turn.leaving(),
        Phase::Left | Phase::Halted | Phase::Withdrawn | Phase::Nothing => (*local, What::Idle),
    }
}
