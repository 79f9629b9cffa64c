//! A whole session: the commands of a script, one after another.

ghost use Rattle.std.specs.Prelude.{◌≡◌, ◌≤◌, ◌&&◌, true, false, length, MatchOption};
ghost use Rattle.session_steps.specs.script_text.Within.{IsWithin};
ghost use Rattle.session_steps.specs.Session.{answer_by, ended_by, ends_session, is_done};
ghost use Rattle.session_steps.specs.Calls.{HeldWhere};
ghost use Rattle.session_steps.specs.Whole.{IsPlayedThrough, SinkCauseAt};

use crate::sessions::Session;
use command_laws::each_command_does_something;
use cut_laws::begun_commands_go_on;
use session_laws::each_state_stands;
use session_steps::script_text::Script;
use session_steps::session_text::{CommandAnswer, LoadAnswer, Played, SessionAnswer};
use std::alloc::Global;
use uc_io::{Files, Sink};
use uc_rendezvous::Rendezvous;
use uc_topology::Topology;

/// What a session answers that this answer of a command ends; nothing where the session goes on.
fn end_by(answer: &CommandAnswer) -> Option<SessionAnswer>
    ensures { MatchOption result (ends_session answer.now ≡ false)
        (λ end. (ends_session answer.now ≡ true) × (end ≡ answer_by (ended_by answer.now) false)) }
{
    match answer {
        CommandAnswer::Load(LoadAnswer::ReadFault(_)) => Some(SessionAnswer::ReadFault),
        CommandAnswer::Load(LoadAnswer::BadFile(..)) => Some(SessionAnswer::BadInput),
        CommandAnswer::Load(LoadAnswer::Panicked(t)) => Some(SessionAnswer::Panicked(*t)),
        CommandAnswer::Load(LoadAnswer::Unfinished(_)) => Some(SessionAnswer::Short),
        _ => None,
    }
}

/// Whether all commands were done, of those before and one more.
fn all_done(before: bool, answer: &CommandAnswer) -> bool
    ensures { result ≡ (before && is_done answer.now) }
{
    before && matches!(answer, CommandAnswer::Done)
}

/// Runs the commands of a script one after another, each as `Session::run` does, up to the last or to one that ends the
/// session: one whose file is not read or is refused, or whose rendezvous leaves a thread halted or unfinished. The
/// answer is the fault of the file or the thread that halted; else `Ended` where every command was done, and `Short`
/// where one was not.
///
/// A session that is cut short by a write fault, or for want of memory, has written a front of what a whole one writes.
pub fn run_session<R: Rendezvous, F: Files, S: Sink>(
    alloc: Global,
    topology: &Topology,
    script: &Script,
    how: &mut R,
    files: &mut F,
    out: &mut S,
) -> SessionAnswer
    requires most { length topology.now.stated.threads ≤ R.limit how.old }
    requires within { IsWithin
        (record { threads = length topology.now.stated.threads; cores = length topology.now.stated.cores }) script.now }
    ensures played { IsPlayedThrough
        (record {
          stands = S.stands;
          faults = S.faults;
          lists = R.lists;
          held = HeldWhere (F.tells files.old) (F.holds files.old);
        })
        (record { machine = topology.now; blocks = script.now.pool; patience = script.now.patience })
        script.now.commands
        (record { files = F.faults files.old; runs = R.runs how.old; sink = out.old })
        (record { files = F.faults files.new; runs = R.runs how.new; sink = out.new })
        result }
    ensures same { F.holds files.new ≡ F.holds files.old }
    ensures still { F.tells files.old → F.tells files.new }
    ensures later { F.faults files.old ≤ F.faults files.new }
    ensures sink_later { S.faults out.old ≤ S.faults out.new }
    ensures sink_cause { SinkCauseAt result (S.faults out.old) (S.faults out.new) }
    ensures most_stays { R.limit how.new ≡ R.limit how.old }
{
    each_state_stands();
    each_command_does_something();
    begun_commands_go_on();
    // Read for its contract: every thread is on a core of the machine, and every core in a group.
    let _threads = topology.threads();
    let Ok(mut session) = Session::new(alloc, topology, script.pool(), script.patience()) else {
        return SessionAnswer::NoMemory;
    };
    let mut done = true;
    for (place, command) in script.commands().iter().enumerate() {
        match session.run(alloc, command, place as u32 + 1, how, files, out) {
            Played::Answered(answer) => {
                if let Some(end) = end_by(&answer) {
                    return end;
                }
                done = all_done(done, &answer);
            }
            Played::WriteFault => return SessionAnswer::WriteFault,
            Played::NoMemory => return SessionAnswer::NoMemory,
        }
    }
    if done {
        SessionAnswer::Ended
    } else {
        SessionAnswer::Short
    }
}
