//! A rendezvous over a schedule, with a line for each item.

ghost use Rattle.std.specs.Prelude.{◌≡◌, true, ◌<◌, ◌≤◌, ◌-◌, All, [], ◌∷◌, map, OnOk};
ghost use Rattle.rendezvous_steps.specs.Plan.{threads_from};
ghost use Rattle.rendezvous_steps.specs.declared.items.Event.TheVariants.{Step as StepOf};
ghost use Rattle.rendezvous_model.specs.RoundStep.{thread_of};
ghost use Rattle.rendezvous_rule.specs.Ran.{events_of, repeated};
ghost use Rattle.rendezvous_rule.specs.Runs.{BeatInRange};
ghost use Rattle.ctl_words.specs.Plans.{plan_of, IsSound};
ghost use Rattle.ctl_core.specs.Cores.{plan_in};
ghost use Rattle.uc_rendezvous.specs.Outcomes.{came_to};
ghost use Rattle.ctl_core.specs.Playing.{under_way, Plays, PlayedTo};
ghost use Rattle.rendezvous_steps.specs.ItemText.{item_line as line_of};
ghost use Rattle.play_laws.proofs.Exist.{always_runs as runs_always, ran_grows};

use crate::cores::Core;
use crate::item_lines::compose;
use crate::moments::Moment;
use arrayvec::ArrayVec;
use ctl_words::Plan;
use rendezvous_steps::{Beat, Event};
use std::alloc::Global;
use std::mem;
use uc_io::{Sink, SinkFailed};
use uc_rendezvous::{Outcome, Rendezvous, RunAnswer};

/// Plays schedules: the events of the beats in order, each item by a line in one write, up to the first moment in which
/// no thread is unfinished. After the first step it takes no memory.
#[derive(Drop)]
pub struct Scheduled {
    /// The last moment of a run, whose room the next one takes. What it holds between two runs means nothing.
    moment: Moment,
}

impl Scheduled {
    /// It takes no memory.
    pub fn new(alloc: Global) -> Scheduled {
        Scheduled {
            moment: Moment::none(alloc),
        }
    }

    /// Plays a whole schedule. After a write fault whole lines and a front of the next one were written.
    fn play<S: Sink>(
        &mut self,
        alloc: Global,
        plan: &Plan,
        beats: &[Beat],
        out: &mut S,
        outcome: &mut Outcome,
    ) -> Result<(), RunAnswer>
        requires sound { IsSound plan.now }
        requires in_range { All (BeatInRange plan.now.threads) beats.now }
        ensures played { PlayedTo S.stands S.faults (plan_of plan.now) beats.now
            out.old out.new (came_to outcome.new result) }
        ensures later { S.faults out.old ≤ S.faults out.new }
        ensures still { OnOk result (S.faults out.new ≡ S.faults out.old) }
    {
        let moment = mem::replace(&mut self.moment, Moment::none(alloc));
        let mut core = Core::over(moment, plan)?;
        play_beats(&mut core, beats, out)?;
        core.fill_outcome(outcome);
        self.moment = core.into_moment();
        Ok(())
    }
}

impl Rendezvous for Scheduled {
    ghost lists = { true };

    ghost limit = { λ _. 256 };

    ghost runs = { λ _. [] };

    fn most(&self) -> u16 {
        256
    }

    fn run<S: Sink>(
        &mut self,
        alloc: Global,
        plan: &Plan,
        beats: &[Beat],
        out: &mut S,
        outcome: &mut Outcome,
    ) -> Result<(), RunAnswer> {
        self.play(alloc, plan, beats, out, outcome)
    }

    ghost always_runs = { runs_always line_of true };

    ghost never_falls = { ran_grows line_of true };
}

/// Plays beats, as far as some thread is unfinished.
fn play_beats<S: Sink>(core: &mut Core<'_>, beats: &[Beat], out: &mut S) -> Result<(), SinkFailed>
    requires { All (BeatInRange (plan_in core.old).threads) beats.now }
    ensures plays { Plays S.stands S.faults (plan_in core.old)
        (under_way core.old out.old) (under_way core.new out.new)
        (events_of (plan_in core.old) beats.now) result }
    ensures plan { plan_in core.new ≡ plan_in core.old }
{
    for beat in beats {
        if core.is_over() {
            return Ok(());
        }
        play_beat(core, *beat, out)?;
    }
    Ok(())
}

fn play_beat<S: Sink>(core: &mut Core<'_>, beat: Beat, out: &mut S) -> Result<(), SinkFailed>
    requires { BeatInRange (plan_in core.old).threads beat }
    ensures plays { Plays S.stands S.faults (plan_in core.old)
        (under_way core.old out.old) (under_way core.new out.new)
        (events_of (plan_in core.old) (beat ∷ [])) result }
    ensures plan { plan_in core.new ≡ plan_in core.old }
{
    match beat {
        Beat::Step(thread) => play_event(core, Event::Step(thread), &mut ArrayVec::new(), out),
        Beat::Timeout(thread) => play_event(
            core,
            Event::Timeout(thread),
            &mut ArrayVec::new(),
            out,
        ),
        Beat::Nmi(thread) => play_event(core, Event::Nmi(thread), &mut ArrayVec::new(), out),
        Beat::Run(thread) => play_event(core, Event::Run(thread), &mut ArrayVec::new(), out),
        Beat::Rounds(count) => play_rounds(core, count, out),
    }
}

/// Plays so many rounds.
fn play_rounds<S: Sink>(core: &mut Core<'_>, count: u16, out: &mut S) -> Result<(), SinkFailed>
    ensures plays { Plays S.stands S.faults (plan_in core.old)
        (under_way core.old out.old) (under_way core.new out.new)
        (repeated count (map StepOf (threads_from (plan_in core.old) 0)) []) result }
    ensures plan { plan_in core.new ≡ plan_in core.old }
{
    for _round in 0..count {
        if core.is_over() {
            return Ok(());
        }
        play_round(core, out)?;
    }
    Ok(())
}

/// Plays a step of each thread in ascending order. All their lines are composed in one buffer.
fn play_round<S: Sink>(core: &mut Core<'_>, out: &mut S) -> Result<(), SinkFailed>
    ensures plays { Plays S.stands S.faults (plan_in core.old)
        (under_way core.old out.old) (under_way core.new out.new)
        (map StepOf (threads_from (plan_in core.old) 0)) result }
    ensures plan { plan_in core.new ≡ plan_in core.old }
{
    let mut line = ArrayVec::new();
    for thread in 0..core.threads() {
        play_event(core, Event::Step(thread), &mut line, out)?;
    }
    Ok(())
}

/// Plays one event, if some thread is unfinished; its line takes the place of what the buffer held. It is laid into its
/// loop, so that a round knows its events for steps.
#[inline(always)]
fn play_event<S: Sink>(
    core: &mut Core<'_>,
    event: Event,
    line: &mut ArrayVec<u8, 64>,
    out: &mut S,
) -> Result<(), SinkFailed>
    requires { thread_of event < (plan_in core.old).threads }
    ensures plays { Plays S.stands S.faults (plan_in core.old)
        (under_way core.old out.old) (under_way core.new out.new)
        (event ∷ []) result }
    ensures plan { plan_in core.new ≡ plan_in core.old }
{
    if !core.is_over() {
        let item = core.event(event);
        compose(line, &item);
        out.write(line.as_slice())?;
    }
    Ok(())
}
