//! Loads whose workers a gate holds.

ghost use Rattle.std.specs.Prelude.{false};
ghost use Rattle.rendezvous_steps.specs.ItemText.{item_line as line_of};
ghost use Rattle.play_laws.proofs.Exist.{always_runs as runs_always, ran_grows};
ghost use Rattle.uc_live.specs.Runs.{runs_of};

use super::*;
use rendezvous_steps::Beat;
use std::sync::Wait;
use std::sync::atomic::{AtomicBool, Ordering};
use std::thread::{Threads, yield_now};
use uc_io::Sink;
use uc_live::{Gate, LiveRun, Point};
use uc_rendezvous::{Outcome, Plan, Rendezvous, RunAnswer};

/// How often a worker that is held looks at most, so that no test can hang.
const TURNS: u32 = 10_000_000;

/// A thread is held at a point until another thread has come to one.
#[derive(Clone, Copy)]
struct Hold {
    thread: u16,
    at: Point,
    other: u16,
    until: Point,
}

/// Holds two threads where it is told to, and says whether each hold came to its end.
#[derive(Drop)]
struct Stage<'a> {
    holds: &'a [Hold],
    zero: [AtomicBool; 8],
    one: [AtomicBool; 8],
    gave_up: AtomicBool,
}

impl Stage<'_> {
    fn new(holds: &[Hold]) -> Stage<'_> {
        Stage {
            holds,
            zero: none_seen(),
            one: none_seen(),
            gave_up: AtomicBool::new(false),
        }
    }

    /// The mark of a thread at a point.
    fn mark(&self, thread: u16, point: Point) -> &AtomicBool {
        let marks = if thread == 0 { &self.zero } else { &self.one };
        match point {
            Point::Outside => &marks[0],
            Point::Entered => &marks[1],
            Point::Arrived => &marks[2],
            Point::Decided => &marks[3],
            Point::Begun => &marks[4],
            Point::Wrote => &marks[5],
            Point::Reported => &marks[6],
            Point::Left => &marks[7],
        }
    }

    fn wait_for(&self, thread: u16, point: Point) {
        for _ in 0..TURNS {
            if self.mark(thread, point).load(Ordering::SeqCst) {
                return;
            }
            yield_now();
        }
        self.gave_up.store(true, Ordering::SeqCst);
    }
}

fn none_seen() -> [AtomicBool; 8] {
    [
        AtomicBool::new(false),
        AtomicBool::new(false),
        AtomicBool::new(false),
        AtomicBool::new(false),
        AtomicBool::new(false),
        AtomicBool::new(false),
        AtomicBool::new(false),
        AtomicBool::new(false),
    ]
}

impl Gate for Stage<'_> {
    fn at(&self, thread: u16, point: Point) {
        self.mark(thread, point).store(true, Ordering::SeqCst);
        for hold in self.holds {
            if hold.thread == thread && hold.at == point {
                self.wait_for(hold.other, hold.until);
            }
        }
    }

    fn ordinary(&self, _thread: u16) {}
}

/// A live run at a stage.
#[derive(Drop)]
struct StagedRun<'g, 'h, R> {
    live: LiveRun<'g, Stage<'h>, R>,
}

impl<R: Threads + Wait> Rendezvous for StagedRun<'_, '_, R> {
    ghost lists = { false };

    ghost limit = { λ _. 32 };

    ghost runs = { λ staged. runs_of staged.live };

    fn most(&self) -> u16 {
        32
    }

    fn run<S: Sink>(
        &mut self,
        alloc: Global,
        plan: &Plan,
        _beats: &[Beat],
        _out: &mut S,
        outcome: &mut Outcome,
    ) -> Result<(), RunAnswer> {
        match self.live.hold(alloc, plan, outcome) {
            Ok(()) => Ok(()),
            Err(RunAnswer::NoMemory) => Err(RunAnswer::NoMemory),
            Err(RunAnswer::WriteFault) => unreachable!(),
        }
    }

    ghost always_runs = { runs_always line_of false };

    ghost never_falls = { ran_grows line_of false };
}

const BOOTED: &str = "command 1 boot
up 0 rev 0x000000b4
up 1 rev 0x000000b4
answer done
command 2 load
offer core 0 entry 0 len 64 rev 0x000000f0
";

/// How the program ends at a stage.
fn status_at<R: Threads + Wait>(
    rt: &R,
    alloc: Global,
    stage: &Stage<'_>,
    files: &mut MemFiles,
    out: &mut MemSink,
) -> Result<Status, Fail> {
    let words = words_of(alloc, "t2 s")?;
    let live = LiveRun::new(rt, alloc, stage);
    let mut staged = StagedRun { live };
    Ok(live_cli::run_live(alloc, words.as_slice(), files, out, &mut staged))
}

/// Looks what a load of two threads on one core comes to at a stage, with so much patience.
fn comes_to<R: Threads + Wait>(
    rt: &R,
    alloc: Global,
    patience: u32,
    holds: &[Hold],
    status: Status,
    results: &str,
) -> Result<bool, Fail> {
    let script = format!(in alloc; "ucode-script 1\npatience {patience}\nboot\nload a.bin\nend\n")?;
    let text = format!(in alloc; "{BOOTED}{results}")?;
    let mut files = files_of(alloc, script.as_str())?;
    let mut out = MemSink::new(alloc, ROOM)?;
    let stage = Stage::new(holds);
    let found = status_at(rt, alloc, &stage, &mut files, &mut out)?;
    Ok(
        found == status
            && out.bytes() == text.as_str().as_bytes()
            && !stage.gave_up.load(Ordering::SeqCst),
    )
}

#[test]
fn a_thread_without_patience_drops_the_load(rt: HostRuntime) -> Result<(), Fail> {
    let holds = [Hold {
        thread: 1,
        at: Point::Outside,
        other: 0,
        until: Point::Left,
    }];
    assert!(rt;
        comes_to(
            &rt,
            rt.alloc(),
            0,
            &holds,
            Status::Short,
            "cpu 0 timeout\ncpu 1 timeout\ncore 0 rev 0x000000b4\nanswer timed-out 0\n"
        )?
    );
    Ok(())
}

#[test]
fn a_sibling_without_patience_halts(rt: HostRuntime) -> Result<(), Fail> {
    let holds = [
        Hold {
            thread: 1,
            at: Point::Entered,
            other: 0,
            until: Point::Arrived,
        },
        Hold {
            thread: 0,
            at: Point::Arrived,
            other: 1,
            until: Point::Decided,
        },
        Hold {
            thread: 0,
            at: Point::Begun,
            other: 1,
            until: Point::Left,
        },
    ];
    assert!(rt;
        comes_to(
            &rt,
            rt.alloc(),
            1,
            &holds,
            Status::Panicked(1),
            "cpu 0 updated\ncpu 1 halted\ncore 0 rev 0x000000f0\nanswer panicked 1\n"
        )?
    );
    Ok(())
}
