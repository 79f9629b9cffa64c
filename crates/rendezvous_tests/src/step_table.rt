//! Each line of the step table, walked once: what the code of a step makes of literal values.

use crate::plans::{NEW, OLD, pairs};
use ctl_thread::{after, next};
use rendezvous_steps::Op::{Add, Cas, Load, Store, Sub};
use rendezvous_steps::ThreadResult::{Offline, Updated};
use rendezvous_steps::Word::{Arrive, Ctrl, Decide, Mode, Nmi, OffIn, Res, Rev};
use rendezvous_steps::{How, Kind, Local, Op, Phase, What};
use std::test::Fail;

/// A thread's phase, `at` and `mine`; how the step comes about and what its word holds; the operation, and what comes
/// of it, with the polls from 7 on.
struct Line(u16, Phase, u16, u8, How, u64, Op, Phase, u16, u8, u32, What);

#[rattlefmt::skip]
static LINES: [Line; 53] = [
    Line(0, Phase::Outside, 0, 0, How::Step, 0, Store(Mode(0), 1), Phase::Kicking, 2, 0, 7, What::Enter),
    Line(1, Phase::Outside, 0, 0, How::Step, 0, Store(Mode(1), 1), Phase::Arriving, 0, 0, 7, What::Enter),
    Line(2, Phase::Outside, 0, 6, How::Step, 1, Cas(Nmi(2), 1, 2), Phase::OfflineCount, 0, 6, 7, What::Enter),
    Line(2, Phase::Outside, 0, 6, How::Step, 3, Cas(Nmi(2), 1, 2), Phase::Withdrawn, 0, 6, 7, What::Idle),
    Line(2, Phase::Outside, 0, 6, How::Step, 0, Cas(Nmi(2), 1, 2), Phase::Outside, 0, 6, 7, What::Poll),
    Line(2, Phase::Outside, 0, 6, How::Nmi, 1, Cas(Nmi(2), 1, 2), Phase::OfflineCount, 0, 6, 7, What::Enter),
    Line(2, Phase::Outside, 0, 6, How::Nmi, 3, Cas(Nmi(2), 1, 2), Phase::Withdrawn, 0, 6, 7, What::Ordinary),
    Line(2, Phase::Outside, 0, 6, How::Nmi, 0, Cas(Nmi(2), 1, 2), Phase::Outside, 0, 6, 7, What::Ordinary),
    Line(0, Phase::Kicking, 2, 0, How::Step, 0, Store(Nmi(2), 1), Phase::OfflineWait, 2, 0, 0, What::Kick(2)),
    Line(0, Phase::OfflineWait, 2, 0, How::Step, 1, Load(OffIn), Phase::Arriving, 2, 0, 7, What::Inner),
    Line(0, Phase::OfflineWait, 2, 0, How::Step, 0, Load(OffIn), Phase::OfflineWait, 2, 0, 8, What::Poll),
    Line(0, Phase::OfflineWait, 2, 0, How::Timeout, 0, Cas(Decide, 0, 2), Phase::Withdrawing, 2, 5, 7, What::DropKick),
    Line(0, Phase::OfflineWait, 2, 0, How::Timeout, 4, Cas(Decide, 0, 2), Phase::Withdrawing, 2, 5, 7, What::Inner),
    Line(1, Phase::Arriving, 0, 0, How::Step, 2, Sub(Arrive, 1), Phase::Waiting, 0, 0, 0, What::Arrive),
    Line(1, Phase::Arriving, 0, 0, How::Step, 1, Sub(Arrive, 1), Phase::Deciding, 0, 0, 7, What::Arrive),
    Line(0, Phase::Deciding, 0, 0, How::Step, 0, Cas(Decide, 0, 1), Phase::Reading, 0, 0, 7, What::Go),
    Line(1, Phase::Deciding, 0, 0, How::Step, 0, Cas(Decide, 0, 1), Phase::SiblingWait, 0, 0, 0, What::Go),
    Line(1, Phase::Deciding, 0, 0, How::Step, 3, Cas(Decide, 0, 1), Phase::Leaving, 0, 5, 7, What::Inner),
    Line(1, Phase::Waiting, 0, 0, How::Step, 0, Load(Decide), Phase::Waiting, 0, 0, 8, What::Poll),
    Line(1, Phase::Waiting, 0, 0, How::Step, 1, Load(Decide), Phase::SiblingWait, 0, 0, 0, What::Inner),
    Line(1, Phase::Waiting, 0, 0, How::Step, 3, Load(Decide), Phase::Leaving, 0, 5, 7, What::Inner),
    Line(1, Phase::Waiting, 0, 0, How::Timeout, 0, Cas(Decide, 0, 4), Phase::Leaving, 0, 5, 7, What::Drop),
    Line(1, Phase::Waiting, 0, 0, How::Timeout, 1, Cas(Decide, 0, 4), Phase::SiblingWait, 0, 0, 0, What::Inner),
    Line(1, Phase::Waiting, 0, 0, How::Timeout, 3, Cas(Decide, 0, 4), Phase::Leaving, 0, 5, 7, What::Inner),
    Line(0, Phase::Reading, 0, 0, How::Step, 0xb4, Load(Rev(0)), Phase::Beginning, 0, 0, 7, What::Inner),
    Line(0, Phase::Reading, 0, 0, How::Step, 0xf0, Load(Rev(0)), Phase::Reporting, 0, 3, 7, What::Inner),
    Line(0, Phase::Beginning, 0, 0, How::Step, 1, Store(Mode(0), 2), Phase::Writing, 0, 0, 7, What::Begin(0)),
    Line(0, Phase::Writing, 0, 0, How::Step, 0xb4, Store(Rev(0), 0xf0), Phase::Checking, 0, 0, 7, What::Wrote(0, 0xf0)),
    Line(0, Phase::Checking, 0, 0, How::Step, 0xf0, Load(Rev(0)), Phase::Reporting, 0, 1, 7, What::Inner),
    Line(0, Phase::Checking, 0, 0, How::Step, 0xb4, Load(Rev(0)), Phase::Reporting, 0, 4, 7, What::Inner),
    Line(0, Phase::Reporting, 0, 1, How::Step, 0, Store(Res(0), 1), Phase::Freeing, 1, 1, 7, What::Report(0, Updated)),
    Line(0, Phase::Freeing, 1, 1, How::Step, 0, Cas(Ctrl(1), 0, 1), Phase::Freeing, 2, 1, 7, What::Free(1)),
    Line(0, Phase::Freeing, 1, 4, How::Step, 3, Cas(Ctrl(1), 0, 2), Phase::Freeing, 2, 4, 7, What::Inner),
    Line(0, Phase::Freeing, 2, 1, How::Step, 0, Cas(Ctrl(2), 0, 1), Phase::Leaving, 2, 1, 7, What::Free(2)),
    Line(1, Phase::SiblingWait, 0, 0, How::Step, 0, Load(Ctrl(1)), Phase::SiblingWait, 0, 0, 8, What::Poll),
    Line(1, Phase::SiblingWait, 0, 0, How::Step, 1, Load(Ctrl(1)), Phase::SiblingCheck, 0, 0, 7, What::Inner),
    Line(1, Phase::SiblingWait, 0, 0, How::Step, 2, Load(Ctrl(1)), Phase::SiblingCopy, 0, 0, 7, What::Inner),
    Line(1, Phase::SiblingWait, 0, 0, How::Timeout, 0, Cas(Ctrl(1), 0, 3), Phase::Halted, 0, 0, 7, What::Halt),
    Line(1, Phase::SiblingWait, 0, 0, How::Timeout, 1, Cas(Ctrl(1), 0, 3), Phase::SiblingCheck, 0, 0, 7, What::Inner),
    Line(1, Phase::SiblingWait, 0, 0, How::Timeout, 2, Cas(Ctrl(1), 0, 3), Phase::SiblingCopy, 0, 0, 7, What::Inner),
    Line(1, Phase::SiblingCheck, 0, 0, How::Step, 0xf0, Load(Rev(0)), Phase::Leaving, 0, 2, 7, What::Inner),
    Line(1, Phase::SiblingCheck, 0, 0, How::Step, 0xb4, Load(Rev(0)), Phase::Leaving, 0, 4, 7, What::Inner),
    Line(1, Phase::SiblingCopy, 0, 0, How::Step, 3, Load(Res(0)), Phase::Leaving, 0, 3, 7, What::Inner),
    Line(0, Phase::Withdrawing, 2, 5, How::Step, 1, Cas(Nmi(2), 1, 3), Phase::Leaving, 2, 5, 7, What::Withdraw(2)),
    Line(0, Phase::Withdrawing, 2, 5, How::Step, 2, Cas(Nmi(2), 1, 3), Phase::Releasing, 2, 5, 7, What::Inner),
    Line(0, Phase::Releasing, 2, 5, How::Step, 0, Cas(Ctrl(2), 0, 2), Phase::Leaving, 2, 5, 7, What::Free(2)),
    Line(0, Phase::Releasing, 2, 5, How::Step, 3, Cas(Ctrl(2), 0, 2), Phase::Leaving, 2, 5, 7, What::Inner),
    Line(2, Phase::OfflineCount, 0, 6, How::Step, 0, Add(OffIn, 1), Phase::OfflineHold, 0, 6, 0, What::Arrive),
    Line(2, Phase::OfflineHold, 0, 6, How::Step, 0, Load(Ctrl(2)), Phase::OfflineHold, 0, 6, 8, What::Poll),
    Line(2, Phase::OfflineHold, 0, 6, How::Step, 2, Load(Ctrl(2)), Phase::Leaving, 0, 6, 7, What::Inner),
    Line(2, Phase::OfflineHold, 0, 6, How::Timeout, 0, Cas(Ctrl(2), 0, 3), Phase::Halted, 0, 6, 7, What::Halt),
    Line(2, Phase::OfflineHold, 0, 6, How::Timeout, 2, Cas(Ctrl(2), 0, 3), Phase::Leaving, 0, 6, 7, What::Inner),
    Line(2, Phase::Leaving, 0, 6, How::Step, 0, Store(Mode(2), 14), Phase::Left, 0, 6, 7, What::Leave(Offline)),
];

/// Thread 0 is the primary of thread 1, which is Online, and of thread 2, which is Offline. The group runs revision
/// 0xb4 and is offered 0xf0.
#[test]
fn each_line_of_the_table(rt: HostRuntime) -> Result<(), Fail> {
    let mut plan = pairs(1, Kind::Online, 0);
    let _ = plan.kind.try_push(Kind::Offline);
    let _ = plan.group.try_push(0);
    plan.threads = 3;
    assert!(rt; plan.sound());
    assert!(rt; (OLD, NEW) == (0xb4, 0xf0));
    for line in &LINES {
        let Line(
            thread,
            phase,
            at,
            mine,
            how,
            found,
            op,
            next_phase,
            next_at,
            next_mine,
            polls,
            what,
        ) = line;
        assert!(rt; *thread < plan.threads);
        let local = Local {
            phase: *phase,
            at: *at,
            polls: 7,
            mine: *mine,
        };
        let Some(operation) = next(&plan, *thread, &local, *how) else {
            panic!(rt; "no operation");
        };
        assert_eq!(rt; operation, *op);
        let (local, item) = after(&plan, *thread, &local, *how, *found);
        assert_eq!(rt; item, *what);
        assert_eq!(rt; local.phase, *next_phase);
        assert_eq!(rt; local.at, *next_at);
        assert_eq!(rt; local.mine, *next_mine);
        assert_eq!(rt; local.polls, *polls);
    }
    Ok(())
}
