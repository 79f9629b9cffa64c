//! A rendezvous by workers.

ghost use Rattle.std.specs.Prelude.{◌≡◌, ◌≤◌, false, []};
ghost use Rattle.ctl_words.specs.Plans.{plan_of, IsSound};
ghost use Rattle.rendezvous_steps.specs.ItemText.{item_line as line_of};
ghost use Rattle.play_laws.proofs.Exist.{always_runs as runs_always, ran_grows};
ghost use Rattle.uc_rendezvous.specs.Outcomes.{came_to};
ghost use Rattle.uc_live.specs.Runs.{runs_of, HeldTo};

use crate::chains::work_all;
use crate::gates::{Gate, OpenGate};
use ctl_table::{Bay, Closed, Outcome, Plan};
use rendezvous_steps::Beat;
use std::alloc::Global;
use std::sync::Wait;
use std::thread::Threads;
use uc_io::Sink;
use uc_rendezvous::{Rendezvous, RunAnswer};

/// Lets a worker step each thread of a plan, and keeps what each run came to.
#[derive(Drop)]
pub struct LiveRun<'g, G, R> {
    rt: R,
    gate: &'g G,
    kept: Vec<Closed>,
}

impl<'g, G, R> LiveRun<'g, G, R> {
    pub fn new(rt: R, alloc: Global, gate: &'g G) -> LiveRun<'g, G, R>
        ensures { runs_of result ≡ [] }
    {
        LiveRun {
            rt,
            gate,
            kept: Vec::new(alloc),
        }
    }
}

impl<G: Gate + Sync, R: Threads + Wait> LiveRun<'_, G, R> {
    /// Runs the rendezvous of a plan, and makes the outcome that is lent that of a closed bay of this plan, which it
    /// keeps. All memory is taken before the first step. It answers want of memory, and never a write fault.
    pub fn hold(
        &mut self,
        alloc: Global,
        plan: &Plan,
        outcome: &mut Outcome,
    ) -> Result<(), RunAnswer>
        requires sound { IsSound plan.now }
        requires few { plan.now.threads ≤ 32 }
        ensures { HeldTo (plan_of plan.now) (runs_of self.old) (runs_of self.new) (came_to outcome.new result) }
    {
        let Ok(()) = self.kept.reserve(1) else {
            return Err(RunAnswer::NoMemory);
        };
        let (bay, zero) = Bay::new(alloc, plan)?;
        let zero = work_all(&self.rt, &bay, plan, self.gate, zero);
        let closed = bay.close(zero);
        closed.fill_outcome(outcome);
        let Ok(()) = self.kept.push(closed) else {
            unreachable!()
        };
        Ok(())
    }
}

impl<R: Threads + Wait> Rendezvous for LiveRun<'_, OpenGate, R> {
    ghost lists = { false };

    ghost limit = { λ _. 32 };

    ghost runs = { runs_of };

    fn most(&self) -> u16 {
        32
    }

    fn run<S: Sink>(
        &mut self,
        alloc: Global,
        plan: &Plan,
        _beats: &[Beat],
        _out: &mut S,
        outcome: &mut Outcome,
    ) -> Result<(), RunAnswer> {
        self.hold(alloc, plan, outcome)
    }

    ghost always_runs = { runs_always line_of false };

    ghost never_falls = { ran_grows line_of false };
}
