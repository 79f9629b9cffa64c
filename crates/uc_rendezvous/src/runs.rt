//! What a run of a rendezvous promises.

ghost use Rattle.std.specs.Prelude.{◌≡◌, ◌≤◌, ℕ, Bool, List, All};
ghost use Rattle.rendezvous_rule.specs.Runs.{RunOf, BeatInRange, AlwaysRuns, RanGrows};
ghost use Rattle.ctl_words.specs.Plans.{plan_of, IsSound};
ghost use Rattle.rendezvous_steps.specs.ItemText.{item_line};
ghost use Rattle.uc_rendezvous.specs.declared.runs.RunAnswer.TheVariants.{WriteFault as WriteFaultAnswer};
ghost use Rattle.uc_rendezvous.specs.declared.runs.RunAnswer.TheVariants.{NoMemory as NoMemoryAnswer};
ghost use Rattle.uc_rendezvous.specs.Outcomes.{came_to};
ghost use Rattle.uc_rendezvous.specs.Runs.{IsRun};

use crate::outcomes::Outcome;
use ctl_words::Plan;
use rendezvous_steps::Beat;
use std::alloc::Global;
use uc_bytes::NoMemory as OutOfMemory;
use uc_io::{Sink, SinkFailed};

/// Why a run came to no outcome.
#[derive(Clone, Copy, Debug, PartialEq, Eq)]
pub enum RunAnswer {
    /// What was printed did not all get out. The sink's count of faults has risen.
    WriteFault,
    /// No memory was left before the first step.
    NoMemory,
}

impl From<SinkFailed> for RunAnswer {
    ghost from_gives = { λ _ answer. answer ≡ WriteFaultAnswer };

    fn from(_error: SinkFailed) -> RunAnswer {
        RunAnswer::WriteFault
    }
}

impl From<OutOfMemory> for RunAnswer {
    ghost from_gives = { λ _ answer. answer ≡ NoMemoryAnswer };

    fn from(_error: OutOfMemory) -> RunAnswer {
        RunAnswer::NoMemory
    }
}

/// Lets the threads of a plan rendezvous.
pub trait Rendezvous {
    /// Whether a run prints its items, each by a line.
    ghost lists: { Bool };

    /// The greatest number of threads of a plan that it takes.
    ghost limit: { Self → ℕ };

    /// The runs so far, where they do not print their items.
    ghost runs: { Self → List RunOf };

    /// The greatest number of threads of a plan that it takes. A run does not change it.
    fn most(&self) -> u16
        ensures { result ≡ limit self.now };

    /// Runs the rendezvous of a plan, and makes the outcome that is lent the one that it came to. Where it came to
    /// none, what the outcome holds means nothing. Where it prints its items, they are those of the beats' events, up
    /// to the first moment in which no thread is unfinished. It answers a write fault only where the sink's count of
    /// faults rose; a front of the text of a run was then written.
    fn run<S: Sink>(
        &mut self,
        alloc: Global,
        plan: &Plan,
        beats: &[Beat],
        out: &mut S,
        outcome: &mut Outcome,
    ) -> Result<(), RunAnswer>
        requires sound { IsSound plan.now }
        requires few { plan.now.threads ≤ limit self.old }
        requires in_range { All (BeatInRange plan.now.threads) beats.now }
        ensures answer { IsRun
            (record { stands = S.stands; faults = S.faults; lists = lists })
            (plan_of plan.now) beats.now
            (record { runs = runs self.old; sink = out.old })
            (record { runs = runs self.new; sink = out.new })
            (came_to outcome.new result) }
        ensures most_stays { limit self.new ≡ limit self.old };

    /// Every sound plan has a run, whatever the beats.
    ghost always_runs: { AlwaysRuns item_line lists };

    /// In a run no group's revision falls.
    ghost never_falls: { RanGrows item_line lists };
}
