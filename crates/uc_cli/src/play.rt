//! `play`: the session of a script on the machine of a topology.
ghost use Rattle.std.specs.Prelude.{◌≡◌, ◌≤◌};
ghost use Rattle.uc_io.specs.Faults.{Rose};
ghost use Rattle.status_rule.specs.Causes.{ReadCause, WriteCause};
ghost use Rattle.status_rule.specs.Written.{Written};
ghost use Rattle.tool_text.specs.Plays.{PlayText};
ghost use Rattle.tool_text.specs.Tool.{FromReads, UsageCause};
ghost use Rattle.tool_text.specs.Words.{PlayOf};
ghost use Rattle.uc_cli.specs.Playing.{IsEnded};

use crate::reading::{read_commands, read_machine};
use crate::refusal::{Refusal, refuse};
use ctl_core::Scheduled;
use status_rule::Status;
use std::alloc::Global;
use tool_laws::some_session_text;
use tool_text::session_text::SessionAnswer;
use uc_bytes::Text;
use uc_io::{Files, Sink};
use uc_session::run_session;

/// How a run ends whose session answered so: where memory ran out, with the line on that.
pub fn end_session<S: Sink>(out: &mut S, answer: SessionAnswer) -> Status
    ensures { IsEnded S.stands S.faults out.old out.new answer result }
{
    match answer {
        SessionAnswer::Ended => Status::Done,
        SessionAnswer::Short => Status::Short,
        SessionAnswer::BadInput => Status::BadInput,
        SessionAnswer::ReadFault => Status::ReadFault,
        SessionAnswer::WriteFault => Status::WriteFault,
        SessionAnswer::Panicked(thread) => Status::Panicked(thread),
        SessionAnswer::NoMemory => refuse(out, Refusal::NoMemory),
    }
}

/// Reads a topology and then a script for it, and runs the script's commands, each written as it goes; or says why there is
/// nothing to run.
pub fn play<F: Files, S: Sink>(
    alloc: Global,
    topology: &Text,
    script: &Text,
    files: &mut F,
    out: &mut S,
) -> Status
    ensures written { Written (FromReads (F.tells files.old) (F.holds files.old) (PlayText topology.now script.now)) (Rose (F.faults files.old) (F.faults files.new)) S.stands out.old out.new result }
    ensures usage { UsageCause (PlayOf topology.now script.now) result }
    ensures read_cause { ReadCause (F.faults files.old) (F.faults files.new) result }
    ensures write_cause { WriteCause (S.faults out.old) (S.faults out.new) result }
    ensures same { F.holds files.new ≡ F.holds files.old }
    ensures still { F.tells files.old → F.tells files.new }
    ensures later { F.faults files.old ≤ F.faults files.new }
{
    some_session_text();
    let machine = match read_machine(alloc, topology, files) {
        Ok(machine) => machine,
        Err(refusal) => return refuse(out, refusal),
    };
    let script = match read_commands(alloc, script, &machine, files) {
        Ok(script) => script,
        Err(refusal) => return refuse(out, refusal),
    };
    let answer = run_session(
        alloc,
        &machine,
        &script,
        &mut Scheduled::new(alloc),
        files,
        out,
    );
    end_session(out, answer)
}
