//! Two workers that a gate holds.

ghost use Rattle.std.specs.Prelude.{◌≤◌};
ghost use Rattle.ctl_words.specs.Plans.{IsSound};

use crate::plans::{NEW, OLD, pairs};
use ctl_table::{End, Outcome, Plan, ThreadResult};
use rendezvous_steps::Kind;
use std::alloc::Global;
use std::sync::Wait;
use std::sync::atomic::{AtomicBool, Ordering};
use std::test::Fail;
use std::thread::{Threads, yield_now};
use uc_live::{Gate, LiveRun, Point};
use uc_rendezvous::RunAnswer;

/// How often a worker that is held looks at most, so that no test can hang.
const TURNS: u32 = 10_000_000;

/// A thread is held at a point until the other thread has come to one.
#[derive(Clone, Copy)]
struct Hold {
    thread: u16,
    at: Point,
    until: Point,
}

/// Holds threads 0 and 1 where it is told to, and says whether one was held for so many turns.
#[derive(Drop)]
struct Stage<'a> {
    holds: &'a [Hold],
    zero: [AtomicBool; 8],
    one: [AtomicBool; 8],
    gave_up: AtomicBool,
}

fn no_marks() -> [AtomicBool; 8] {
    [
        AtomicBool::new(false),
        AtomicBool::new(false),
        AtomicBool::new(false),
        AtomicBool::new(false),
        AtomicBool::new(false),
        AtomicBool::new(false),
        AtomicBool::new(false),
        AtomicBool::new(false),
    ]
}

impl Stage<'_> {
    fn new(holds: &[Hold]) -> Stage<'_> {
        Stage {
            holds,
            zero: no_marks(),
            one: no_marks(),
            gave_up: AtomicBool::new(false),
        }
    }

    /// The mark that a thread has come to a point.
    fn mark(&self, thread: u16, point: Point) -> &AtomicBool {
        let marks = if thread == 0 { &self.zero } else { &self.one };
        match point {
            Point::Outside => &marks[0],
            Point::Entered => &marks[1],
            Point::Arrived => &marks[2],
            Point::Decided => &marks[3],
            Point::Begun => &marks[4],
            Point::Wrote => &marks[5],
            Point::Reported => &marks[6],
            Point::Left => &marks[7],
        }
    }

    fn wait_for(&self, thread: u16, point: Point) {
        for _ in 0..TURNS {
            if self.mark(thread, point).load(Ordering::SeqCst) {
                return;
            }
            yield_now();
        }
        self.gave_up.store(true, Ordering::SeqCst);
    }
}

impl Gate for Stage<'_> {
    fn at(&self, thread: u16, point: Point) {
        self.mark(thread, point).store(true, Ordering::SeqCst);
        for hold in self.holds {
            if hold.thread == thread && hold.at == point {
                self.wait_for(if thread == 0 { 1 } else { 0 }, hold.until);
            }
        }
    }

    fn ordinary(&self, _thread: u16) {}
}

/// What a live run at this stage comes to.
fn outcome_of<R: Threads + Wait>(
    rt: &R,
    alloc: Global,
    plan: &Plan,
    stage: &Stage<'_>,
) -> Result<Outcome, RunAnswer>
    requires sound { IsSound plan.now }
    requires few { plan.now.threads ≤ 32 }
{
    let mut live = LiveRun::new(rt, alloc, stage);
    let mut outcome = Outcome::new();
    live.hold(alloc, plan, &mut outcome)?;
    Ok(outcome)
}

/// Whether two threads on one core, the second of this kind, come to this with so much patience.
fn comes_to<R: Threads + Wait>(
    rt: &R,
    alloc: Global,
    (second, patience): (Kind, u32),
    holds: &[Hold],
    (decide, ends, revision): (u64, [End; 2], u32),
) -> Result<bool, RunAnswer> {
    let plan = pairs(1, second, patience);
    if !plan.sound() || plan.threads > 32 {
        return Ok(false);
    }
    let stage = Stage::new(holds);
    let outcome = outcome_of(rt, alloc, &plan, &stage)?;
    let fits = outcome.decide == decide
        && outcome.ends.as_slice() == ends.as_slice()
        && outcome.revs.as_slice() == [revision].as_slice();
    Ok(fits && !stage.gave_up.load(Ordering::SeqCst))
}

/// Each of two workers waits in the handler for the other, so no thread steps both.
#[test]
fn workers_run_side_by_side(rt: HostRuntime) -> Result<(), Fail> {
    let entered = |thread: u16| Hold {
        thread,
        at: Point::Entered,
        until: Point::Entered,
    };
    let ends = [
        End::Left(ThreadResult::Updated),
        End::Left(ThreadResult::Okay),
    ];
    let holds = [entered(0), entered(1)];
    assert!(rt;
        comes_to(
            &rt,
            rt.alloc(),
            (Kind::Online, u32::MAX),
            &holds,
            (1, ends, NEW)
        )?
    );
    Ok(())
}

/// Thread 1 does not come before thread 0 has left.
#[test]
fn a_thread_without_patience_drops_the_load(rt: HostRuntime) -> Result<(), Fail> {
    let holds = [Hold {
        thread: 1,
        at: Point::Outside,
        until: Point::Left,
    }];
    let dropped = End::Left(ThreadResult::Timeout);
    for (second, decide, end) in &[
        (Kind::Online, 3, dropped),
        (Kind::Offline, 2, End::Withdrawn),
    ] {
        assert!(rt;
            comes_to(
                &rt,
                rt.alloc(),
                (*second, 0),
                &holds,
                (*decide, [dropped, *end], OLD)
            )?
        );
    }
    Ok(())
}

/// Thread 0 does not report before thread 1 has halted.
#[test]
fn a_sibling_without_patience_halts(rt: HostRuntime) -> Result<(), Fail> {
    let hold = |thread: u16, at: Point, until: Point| Hold { thread, at, until };
    let holds = [
        hold(1, Point::Entered, Point::Arrived),
        hold(0, Point::Arrived, Point::Decided),
        hold(0, Point::Begun, Point::Left),
    ];
    let ends = [End::Left(ThreadResult::Updated), End::Halted];
    assert!(rt; comes_to(&rt, rt.alloc(), (Kind::Online, 1), &holds, (1, ends, NEW))?);
    Ok(())
}
