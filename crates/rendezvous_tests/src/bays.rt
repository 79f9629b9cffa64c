//! Worked runs on a bay.

ghost use Rattle.std.specs.Prelude.{◌≡◌};
ghost use Rattle.rendezvous_steps.specs.StepTable.{is_last};
ghost use Rattle.ctl_table.specs.Posts.{plan_in, phase_of, IsOf};

use crate::plans::{NEW, OLD, pairs};
use ctl_table::{Bay, Closed, End, Outcome, Phase, Post, Seen, ThreadResult, What};
use rendezvous_steps::Kind;
use std::process::Abort;
use std::sync::atomic::{AtomicBool, Ordering};
use std::test::Fail;
use std::thread::{join, yield_now};

const TIMEOUT: End = End::Left(ThreadResult::Timeout);

fn has_ended(post: &Post) -> bool
    ensures { result ≡ is_last (phase_of post.now) }
{
    matches!(
        post.phase(),
        Phase::Left | Phase::Halted | Phase::Withdrawn | Phase::Nothing
    )
}

/// Joins the other post of two, and closes the bay.
fn close(rt: &impl Abort, bay: Bay, mut zero: Post, one: Post) -> Closed
    requires ours { IsOf bay zero × IsOf bay one }
    requires two { (plan_in bay).threads ≡ 2 }
{
    assert!(rt; zero.thread() == 0 && has_ended(&zero) && has_ended(&one));
    bay.join(&mut zero, one);
    assert!(rt; zero.thread() == 0 && has_ended(&zero) && zero.joined() == 1);
    bay.close(zero)
}

fn outcome_of(closed: &Closed) -> Outcome {
    let mut outcome = Outcome::new();
    closed.fill_outcome(&mut outcome);
    outcome
}

/// Steps the posts in turn, and compares what each step answers.
fn walk(rt: &impl Abort, bay: &Bay, zero: &mut Post, one: &mut Post, turns: &[(u16, Seen)])
    requires { IsOf bay.now zero.old × IsOf bay.now one.old }
    ensures { IsOf bay.now zero.new × IsOf bay.now one.new }
{
    for (thread, seen) in turns {
        let came = if *thread == 0 {
            bay.step(zero)
        } else {
            bay.step(one)
        };
        assert!(rt; came == *seen);
    }
}

const GO: [(u16, Seen); 18] = [
    (0, Seen::Moved(What::Enter)),
    (1, Seen::Moved(What::Enter)),
    (0, Seen::Moved(What::Arrive)),
    (1, Seen::Moved(What::Arrive)),
    (1, Seen::Moved(What::Go)),
    (0, Seen::Moved(What::Inner)),
    (0, Seen::Moved(What::Inner)),
    (0, Seen::Moved(What::Begin(0))),
    (1, Seen::NotYet),
    (0, Seen::Moved(What::Wrote(0, NEW))),
    (0, Seen::Moved(What::Inner)),
    (0, Seen::Moved(What::Report(0, ThreadResult::Updated))),
    (0, Seen::Moved(What::Free(1))),
    (1, Seen::Moved(What::Inner)),
    (1, Seen::Moved(What::Inner)),
    (1, Seen::Moved(What::Leave(ThreadResult::Okay))),
    (1, Seen::Finished),
    (0, Seen::Moved(What::Leave(ThreadResult::Updated))),
];

/// One thread steps both posts to a go, in the order of a worked schedule.
#[test]
fn table_go(rt: HostRuntime) -> Result<(), Fail> {
    let plan = pairs(1, Kind::Online, u32::MAX);
    assert!(rt; plan.sound() && plan.threads == 2);
    let (bay, mut zero) = Bay::new(rt.alloc(), &plan)?;
    let mut one = bay.split(&mut zero);
    walk(&rt, &bay, &mut zero, &mut one, &GO);
    let closed = close(&rt, bay, zero, one);
    let outcome = outcome_of(&closed);
    assert!(rt; outcome.decide == 1 && !closed.late());
    assert!(rt;
        outcome.ends.as_slice()
            == [
                End::Left(ThreadResult::Updated),
                End::Left(ThreadResult::Okay)
            ]
            .as_slice()
    );
    assert!(rt; outcome.revs.as_slice() == [NEW].as_slice());
    let mut again = pairs(1, Kind::Online, 0);
    closed.fill_plan(&mut again);
    assert!(rt; again.threads == 2 && again.patience == u32::MAX);
    assert!(rt; again.offer.as_slice() == [Some(NEW)].as_slice());
    Ok(())
}

/// Enters, arrives, times out at once and leaves, and then lets the other thread begin.
fn drop_first(bay: &Bay, mut post: Post, patience: u32, dropped: &AtomicBool) -> Post
    requires ours { IsOf bay.now post }
    requires patience { patience ≡ (plan_in bay.now).patience }
    ensures { IsOf bay.now result }
{
    bay.step(&mut post);
    bay.step(&mut post);
    if post.waits() && post.polls() == patience {
        bay.time_out(&mut post);
    }
    bay.step(&mut post);
    dropped.store(true, Ordering::SeqCst);
    post
}

/// Enters once the other thread has left, arrives, decides and leaves.
fn come_late(bay: &Bay, mut post: Post, dropped: &AtomicBool) -> Post
    requires { IsOf bay.now post }
    ensures { IsOf bay.now result }
{
    for _ in 0..u64::MAX {
        if dropped.load(Ordering::SeqCst) {
            break;
        }
        yield_now();
    }
    bay.step(&mut post);
    bay.step(&mut post);
    bay.step(&mut post);
    bay.step(&mut post);
    post
}

/// A thread that gives up before the other has come.
#[test]
fn table_timeout(rt: HostRuntime) -> Result<(), Fail> {
    let plan = pairs(1, Kind::Online, 0);
    assert!(rt; plan.sound() && plan.threads == 2);
    let (bay, mut zero) = Bay::new(rt.alloc(), &plan)?;
    let one = bay.split(&mut zero);
    let dropped = AtomicBool::new(false);
    let patience = plan.patience;
    let (zero, one) = join(
        &rt,
        || -> Post
            requires ours { IsOf bay zero }
            requires patience { patience ≡ (plan_in bay).patience }
            ensures { IsOf bay result }
        { drop_first(&bay, zero, patience, &dropped) },
        || -> Post
            requires { IsOf bay one }
            ensures { IsOf bay result }
        { come_late(&bay, one, &dropped) },
    );
    let closed = close(&rt, bay, zero, one);
    let outcome = outcome_of(&closed);
    assert!(rt; outcome.decide == 3 && closed.late());
    assert!(rt; outcome.ends.as_slice() == [TIMEOUT, TIMEOUT].as_slice());
    assert!(rt; outcome.revs.as_slice() == [OLD].as_slice());
    Ok(())
}
