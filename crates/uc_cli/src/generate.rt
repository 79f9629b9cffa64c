//! `gen`: the session that is generated from a number, and a line on what it wrote.
ghost use Rattle.std.specs.Prelude.{◌≡◌, [], IfOk};
ghost use Rattle.gen_laws.specs.Stated.{machine_of, script_of};
ghost use Rattle.uc_io.specs.Writing.{Writes};
ghost use Rattle.status_rule.specs.Causes.{WriteCause};
ghost use Rattle.status_rule.specs.Written.{Written};
ghost use Rattle.tool_text.specs.Plays.{GenText, status_of};
ghost use Rattle.uc_cli.specs.Generating.{WasPlayed, summary_of};

use crate::refusal::{Refusal, refuse};
use ctl_core::Scheduled;
use gen_laws::{generated_script_is_read, generated_texts_are_short, generated_topology_is_read};
use status_rule::{Status, after_write};
use std::alloc::Global;
use tool_laws::some_session_text;
use tool_text::command_laws::each_command_does_something;
use tool_text::script_text::Script;
use tool_text::session_text::SessionAnswer;
use uc_bytes::NoMemory;
use uc_gen::{TallySink, make_intel, make_script, make_topology};
use uc_io::{Sink, SinkFailed, SureFiles, write_line};
use uc_script::{ScriptAnswer, read_script};
use uc_session::run_session;
use uc_text::dec;
use uc_topology::{Topology, read_topology};

/// The machine of the generated topology.
fn machine_for(alloc: Global, number: u64) -> Result<Topology, NoMemory>
    ensures { IfOk result (λ machine. machine ≡ machine_of number) }
{
    generated_texts_are_short();
    generated_topology_is_read();
    let text = make_topology(alloc, number)?;
    match read_topology(text.as_slice()) {
        Ok(machine) => Ok(machine),
        Err(_) => unreachable!(),
    }
}

/// The generated script, for the 256 threads and 128 cores of that machine.
fn script_for(alloc: Global, number: u64) -> Result<Script, NoMemory>
    ensures { IfOk result (λ script. script ≡ script_of number) }
{
    generated_texts_are_short();
    generated_script_is_read();
    let text = make_script(alloc, number)?;
    match read_script(alloc, text.as_slice(), 256, 128) {
        Ok(script) => Ok(script),
        Err(ScriptAnswer::Fault(_)) => unreachable!(),
        Err(ScriptAnswer::NoMemory) => Err(NoMemory),
    }
}

/// Plays the generated session on the generated bundle, and counts what it writes.
fn play_generated(alloc: Global, number: u64) -> Result<(SessionAnswer, TallySink), NoMemory>
    ensures { IfOk result (λ played. WasPlayed number played.0 played.1) }
{
    each_command_does_something();
    generated_topology_is_read();
    generated_script_is_read();
    let machine = machine_for(alloc, number)?;
    let script = script_for(alloc, number)?;
    let bundle = make_intel(alloc, number)?;
    let mut files = SureFiles::new(alloc);
    files.keep("bundle.bin", bundle)?;
    let mut tally = TallySink::new();
    let answer = run_session(
        alloc,
        &machine,
        &script,
        &mut Scheduled::new(alloc),
        &mut files,
        &mut tally,
    );
    match answer {
        SessionAnswer::NoMemory => Err(NoMemory),
        _ => Ok((answer, tally)),
    }
}

/// `gen NUMBER lines LINES last TEXT`.
fn put_summary<S: Sink>(out: &mut S, number: u64, tally: &TallySink) -> Result<(), SinkFailed>
    ensures { Writes S.stands S.faults out.old out.new (summary_of number tally.now) result }
{
    let number = dec(number);
    let lines = dec(tally.lines());
    write_line(
        out,
        &[
            b"gen ",
            number.as_slice(),
            b" lines ",
            lines.as_slice(),
            b" last ",
            tally.last(),
            b"\n",
        ],
    )
}

/// How a run ends whose session answered so.
fn status_of(answer: SessionAnswer) -> Status
    ensures { result ≡ status_of answer }
{
    match answer {
        SessionAnswer::Ended => Status::Done,
        SessionAnswer::Short => Status::Short,
        SessionAnswer::BadInput => Status::BadInput,
        SessionAnswer::ReadFault => Status::ReadFault,
        SessionAnswer::WriteFault => Status::WriteFault,
        SessionAnswer::Panicked(thread) => Status::Panicked(thread),
        SessionAnswer::NoMemory => Status::NoMemory,
    }
}

/// Plays the session that is generated from a number, and writes how many lines it wrote and the last of them.
pub fn generate<S: Sink>(alloc: Global, number: u64, out: &mut S) -> Status
    ensures written { Written (GenText number []) ⊥ S.stands out.old out.new result }
    ensures write_cause { WriteCause (S.faults out.old) (S.faults out.new) result }
{
    some_session_text();
    match play_generated(alloc, number) {
        Ok((answer, tally)) => after_write(status_of(answer), put_summary(out, number, &tally)),
        Err(NoMemory) => refuse(out, Refusal::NoMemory),
    }
}
