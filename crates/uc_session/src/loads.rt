//! A load.

ghost use Rattle.std.specs.Prelude.{◌≡◌, ◌≤◌, ◌++◌, ℕ, List, Option, All, IfSome, length, ◌<◌};
ghost use Rattle.uc_io.specs.Writing.{Writes};
ghost use Rattle.uc_topology.specs.Stated.{group_count};
ghost use Rattle.session_steps.specs.rendezvous_rule.Runs.{BeatInRange};
ghost use Rattle.session_steps.specs.script_text.declared.command.Command.TheVariants.{Load};
ghost use Rattle.session_steps.specs.session_text.Lines.{answer_line};
ghost use Rattle.session_laws.specs.Standing.{Standing};
ghost use Rattle.session_steps.specs.State.{Setting, State, machine_of};
ghost use Rattle.session_steps.specs.Offers.{load_offers_text, plan_of as load_plan};
ghost use Rattle.session_steps.specs.Did.{results_text};
ghost use Rattle.session_steps.specs.Calls.{HeldWhere};
ghost use Rattle.session_steps.specs.machine_steps.Puts.{Puts};
ghost use Rattle.ctl_words.specs.Plans.{plan_of, IsSound};
ghost use Rattle.uc_rendezvous.specs.Outcomes.{outcome_of, came_to};
ghost use Rattle.session_parts.specs.Parts.{setting_of, state_of};
ghost use Rattle.uc_session.specs.Meeting.{Meets, cut_short};
ghost use Rattle.uc_session.specs.Playing.{Does};
ghost use Rattle.uc_session.specs.Verdicts.{answered};

use crate::playing::tell_load;
use crate::rooms::Room;
use crate::setting_out::{Stop, set_out};
use crate::verdicts::verdict;
use command_laws::each_command_does_something;
use ctl_words::{Plan, tables_end};
use play_laws::each_event_keeps_the_rule;
use round_laws::the_verdict_is_the_first_that_holds;
use session_parts::{LoadTables, Parts};
use session_report::{put_answer, put_load_offers, put_results};
use session_steps::rendezvous_steps::Beat;
use session_steps::session_text::{CommandAnswer, LoadAnswer, Played};
use std::alloc::Global;
use uc_bytes::Text;
use uc_catalog::Catalog;
use uc_io::{Files, Sink, SinkFailed};
use uc_rendezvous::{Outcome, Rendezvous, RunAnswer};
use uc_topology::Topology;

/// Writes what a load offers, lets the threads of its plan meet, and makes the outcome the one that they come to.
fn offer_and_run<R: Rendezvous, S: Sink>(
    alloc: Global,
    topology: &Topology,
    catalog: &Catalog,
    tables: &LoadTables,
    beats: &[Beat],
    how: &mut R,
    out: &mut S,
    outcome: &mut Outcome,
) -> Result<(), RunAnswer>
    requires count { length tables.now.offers.items ≡ group_count topology.now.stated.cores }
    requires within { All (λ offer. IfSome offer (λ number. number < length catalog.now.entries))
        tables.now.offers.items }
    requires sound { IsSound tables.now.plan }
    requires few { tables.now.plan.threads ≤ R.limit how.old }
    requires in_range { All (BeatInRange tables.now.plan.threads) beats.now }
    ensures meets { (setting : Setting) (state : State) (puts : Puts) → setting.machine ≡ topology.now →
        plan_of tables.now.plan ≡ load_plan setting state puts tables.now.offers.items → Meets
        (record { stands = S.stands; faults = S.faults; lists = R.lists }) (plan_of tables.now.plan) beats.now
        (load_offers_text setting state catalog.now.entries tables.now.offers.items)
        (record { runs = R.runs how.old; sink = out.old }) (record { runs = R.runs how.new; sink = out.new })
        (came_to outcome.new result) }
    ensures most_stays { R.limit how.new ≡ R.limit how.old }
{
    tables_end();
    let plan = &tables.plan;
    put_load_offers(out, topology, plan, catalog, tables.offers.as_slice())?;
    how.run(alloc, plan, beats, out, outcome)
}

/// What a command answers whose load came to this.
fn command_answer(answer: LoadAnswer) -> CommandAnswer
    ensures { result ≡ answered answer }
{
    match answer {
        LoadAnswer::Done => CommandAnswer::Done,
        other => CommandAnswer::Load(other),
    }
}

/// What a load came to whose rendezvous came to no outcome.
fn cut_short(answer: RunAnswer) -> Played
    ensures { result ≡ cut_short answer }
{
    match answer {
        RunAnswer::WriteFault => Played::WriteFault,
        RunAnswer::NoMemory => Played::NoMemory,
    }
}

/// Writes what a rendezvous came to, and the answer.
fn put_end<S: Sink>(
    out: &mut S,
    topology: &Topology,
    plan: &Plan,
    outcome: &Outcome,
    names: &[Text],
    answer: CommandAnswer,
) -> Result<(), SinkFailed>
    requires { length outcome.now.revs.items ≡ group_count topology.now.stated.cores }
    ensures { (setting : Setting) (state : State) (puts : Puts) (offers : List (Option ℕ)) →
        setting.machine ≡ topology.now → plan_of plan.now ≡ load_plan setting state puts offers →
        Writes S.stands S.faults out.old out.new
        (results_text setting state (plan_of plan.now) (outcome_of outcome.now) ++ answer_line names.now answer)
        result }
{
    put_results(
        out,
        topology,
        plan,
        outcome.ends.as_slice(),
        outcome.revs.as_slice(),
    )?;
    put_answer(out, names, answer)
}

/// Loads from the files of these names, 1 to 16, over the schedule of these beats. The heading was written. The room is
/// lent: nothing is taken from what an earlier load left in it.
pub fn play_load<R: Rendezvous, F: Files, S: Sink>(
    alloc: Global,
    parts: &mut Parts,
    room: &mut Room,
    force: bool,
    names: &[Text],
    beats: &[Beat],
    how: &mut R,
    files: &mut F,
    out: &mut S,
) -> Played
    requires few { length names.now ≤ 16 }
    requires beats { All (BeatInRange (machine_of (setting_of parts.old)).threads) beats.now }
    requires most { (machine_of (setting_of parts.old)).threads ≤ R.limit how.old }
    requires standing { Standing (setting_of parts.old) (state_of parts.old) }
    ensures does { Does
        (record {
          stands = S.stands;
          faults = S.faults;
          lists = R.lists;
          held = HeldWhere (F.tells files.old) (F.holds files.old);
        })
        (setting_of parts.old) (Load force names.now beats.now)
        (record { state = state_of parts.old; files = F.faults files.old; runs = R.runs how.old; sink = out.old })
        (record { state = state_of parts.new; files = F.faults files.new; runs = R.runs how.new; sink = out.new })
        result }
    ensures setting { setting_of parts.new ≡ setting_of parts.old }
    ensures same { F.holds files.new ≡ F.holds files.old }
    ensures still { F.tells files.old → F.tells files.new }
    ensures later { F.faults files.old ≤ F.faults files.new }
    ensures most_stays { R.limit how.new ≡ R.limit how.old }
{
    each_command_does_something();
    each_event_keeps_the_rule();
    the_verdict_is_the_first_that_holds();
    // Read for its contract: every thread is on a core of the machine, and every core in a group.
    let _topology = parts.topology();
    let catalog = match set_out(
        alloc,
        parts,
        force,
        names,
        files,
        &mut room.piece,
        &mut room.tables,
    ) {
        Ok(catalog) => catalog,
        Err(Stop::Answer(answer)) => return tell_load(out, names, answer),
        Err(Stop::NoMemory) => return Played::NoMemory,
    };
    let Room {
        tables,
        outcome,
        ..
    } = room;
    match offer_and_run(
        alloc,
        parts.topology(),
        &catalog,
        tables,
        beats,
        how,
        out,
        outcome,
    ) {
        Ok(()) => {}
        Err(answer) => {
            parts.take_back(tables.places.as_slice());
            return cut_short(answer);
        }
    }
    let plan = &tables.plan;
    parts.finish_load(tables.places.as_slice(), plan, outcome.revs.as_slice());
    let answer = command_answer(verdict(plan, outcome));
    match put_end(out, parts.topology(), plan, outcome, names, answer) {
        Ok(()) => Played::Answered(answer),
        Err(_) => Played::WriteFault,
    }
}
