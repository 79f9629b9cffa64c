//! What a thread does next.

ghost use Rattle.std.specs.Prelude.{◌≡◌, ◌<◌, ◌↔◌, IsNone, IsTrue};
ghost use Rattle.rendezvous_steps.specs.declared.operations.Op.TheVariants.{Store};
ghost use Rattle.rendezvous_steps.specs.declared.operations.Word.TheVariants.{Rev};
ghost use Rattle.rendezvous_steps.specs.StepTable.{opening, operation, is_last, result_of, write_of, release_of};
ghost use Rattle.rendezvous_steps.specs.Plan.{offer_or_rev0};
ghost use Rattle.ctl_words.specs.Plans.{plan_of, IsSound};

use ctl_words::Plan;
use rendezvous_steps::{How, Kind, Local, Op, Phase, ThreadResult, Word};

/// Where a thread stands when a rendezvous begins.
#[tactic(auto, unfolding(rendezvous_steps::specs::StepTable::opening))]
pub fn opening(plan: &Plan, thread: u16) -> Local
    requires sound { IsSound plan.now }
    requires in_range { thread < plan.now.threads }
    ensures { result ≡ opening (plan_of plan.now) thread }
{
    let (phase, mine) = match plan.kind_of(thread) {
        Kind::Online => (Phase::Outside, 0),
        Kind::Offline => (Phase::Outside, ThreadResult::Offline.number()),
        Kind::Absent => (Phase::Nothing, 0),
    };
    Local {
        phase,
        at: 0,
        polls: 0,
        mine,
    }
}

/// The thread's next operation. It has none exactly in the phases Left, Halted, Withdrawn and Nothing.
#[inline(always)]
#[tactic(auto, unfolding(rendezvous_steps::specs::StepTable::operation))]
pub fn next(plan: &Plan, thread: u16, local: &Local, how: How) -> Option<Op>
    requires sound { IsSound plan.now }
    requires in_range { thread < plan.now.threads }
    ensures row { result ≡ operation (plan_of plan.now) thread local.now how }
    ensures none { IsNone result ↔ IsTrue (is_last local.now.phase) }
{
    let op = match (local.phase, how) {
        (Phase::Outside, _) => match plan.kind_of(thread) {
            Kind::Offline => Op::Cas(Word::Nmi(thread), 1, 2),
            _ => Op::Store(Word::Mode(thread), 1),
        },
        (Phase::Kicking, _) => Op::Store(Word::Nmi(local.at), 1),
        (Phase::OfflineWait, How::Timeout) => Op::Cas(Word::Decide, 0, 2),
        (Phase::OfflineWait, _) => Op::Load(Word::OffIn),
        (Phase::Arriving, _) => Op::Sub(Word::Arrive, 1),
        (Phase::Deciding, _) => Op::Cas(Word::Decide, 0, 1),
        (Phase::Waiting, How::Timeout) => Op::Cas(Word::Decide, 0, 3 + u64::from(thread)),
        (Phase::Waiting, _) => Op::Load(Word::Decide),
        (Phase::Reading | Phase::Checking | Phase::SiblingCheck, _) => {
            Op::Load(Word::Rev(plan.group_of(thread)))
        }
        (Phase::Beginning, _) => Op::Store(Word::Mode(thread), 2),
        (Phase::Writing, _) => write(plan, plan.group_of(thread)),
        (Phase::Reporting, _) => {
            Op::Store(
                Word::Res(plan.group_of(thread)),
                u64::from(told(local).number()),
            )
        }
        (Phase::Freeing, _) => Op::Cas(Word::Ctrl(local.at), 0, release_of(local)),
        (Phase::SiblingWait, How::Timeout) => Op::Cas(Word::Ctrl(thread), 0, 3),
        (Phase::SiblingWait, _) => Op::Load(Word::Ctrl(thread)),
        (Phase::SiblingCopy, _) => Op::Load(Word::Res(plan.group_of(thread))),
        (Phase::Withdrawing, _) => Op::Cas(Word::Nmi(local.at), 1, 3),
        (Phase::Releasing, _) => Op::Cas(Word::Ctrl(local.at), 0, 2),
        (Phase::OfflineCount, _) => Op::Add(Word::OffIn, 1),
        (Phase::OfflineHold, How::Timeout) => Op::Cas(Word::Ctrl(thread), 0, 3),
        (Phase::OfflineHold, _) => Op::Load(Word::Ctrl(thread)),
        (Phase::Leaving, _) => Op::Store(Word::Mode(thread), 8 + u64::from(told(local).number())),
        (Phase::Left | Phase::Halted | Phase::Withdrawn | Phase::Nothing, _) => return None,
    };
    Some(op)
}

/// A group's revision is written.
#[inline(always)]
fn write(plan: &Plan, group: u16) -> Op
    ensures { result ≡ Store (Rev group) (write_of (plan_of plan.now) group) }
{
    Op::Store(Word::Rev(group), u64::from(write_of(plan, group)))
}

/// The result that a thread is about to report or to leave with.
#[inline(always)]
pub fn told(local: &Local) -> ThreadResult
    ensures { result ≡ result_of local.now.mine }
{
    ThreadResult::from_number(u64::from(local.mine))
}

/// The revision that a write leaves: the offer, or the revision at the start where the group refuses.
pub fn write_of(plan: &Plan, group: u16) -> u32
    ensures { result ≡ write_of (plan_of plan.now) group }
{
    if plan.refuses(group) {
        plan.rev0_of(group)
    } else {
        offer_or_rev0(plan, group)
    }
}

/// The offer; where there is none, which no step meets, the revision at the start.
pub fn offer_or_rev0(plan: &Plan, group: u16) -> u32
    ensures { result ≡ offer_or_rev0 (plan_of plan.now) group }
{
    plan.offer_of(group).unwrap_or(plan.rev0_of(group))
}

/// What a primary tells those that it frees: 1 to apply, 2 that it is done.
#[inline(always)]
fn release_of(local: &Local) -> u64
    ensures { result ≡ release_of local.now }
{
    if local.mine == 1 { 1 } else { 2 }
}
