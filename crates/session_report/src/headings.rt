//! The heading of a command.
ghost use Rattle.std.specs.Prelude.{◌≡◌, ◌+◌, ◌≤◌, ◌++◌, length};
ghost use Rattle.uc_io.specs.Writing.{Writes};
ghost use Rattle.session_text.specs.Lines.{command_line, number_text};
ghost use Rattle.session_text.specs.Headings.{heading, number_in, word_of};

use script_text::Command;
use uc_io::{Sink, SinkFailed};
use uc_report::Line;

/// Puts the word of a command.
fn put_word_of(line: &mut Line, command: &Command)
    requires { 10 + length line.old ≤ 160 }
    ensures bytes { line.new ≡ word_of command.now ++ line.old }
    ensures len { length line.new ≤ 10 + length line.old }
{
    match command {
        Command::Boot(_) => line.put(b"boot"),
        Command::Online(_) => line.put(b"online"),
        Command::Offline(_) => line.put(b"offline"),
        Command::Suspend => line.put(b"suspend"),
        Command::Resume => line.put(b"resume"),
        Command::Refuse(_) => line.put(b"refuse"),
        Command::Accept(_) => line.put(b"accept"),
        Command::Load { force: true, .. } => line.put(b"load-force"),
        Command::Load { force: false, .. } => line.put(b"load"),
    }
}

/// The thread or core that a command is for.
fn number_in(command: &Command) -> Option<u16>
    ensures { result ≡ number_in command.now }
{
    match command {
        Command::Online(number)
        | Command::Offline(number)
        | Command::Refuse(number)
        | Command::Accept(number) => Some(*number),
        Command::Boot(_) | Command::Suspend | Command::Resume | Command::Load { .. } => None,
    }
}

/// Puts ` N`, or nothing where there is no number.
fn put_number(line: &mut Line, number: Option<u16>)
    requires { 21 + length line.old ≤ 160 }
    ensures bytes { line.new ≡ number_text number ++ line.old }
    ensures len { length line.new ≤ 21 + length line.old }
{
    if let Some(number) = number {
        line.put_dec(u64::from(number));
        line.put(b" ");
    }
}

/// `command K WORD`, with the thread or core that the command is for. Commands are numbered from 1.
#[tactic(auto, unfolding(session_text::specs::Lines::command_line))]
pub fn put_heading<S: Sink>(out: &mut S, k: u32, command: &Command) -> Result<(), SinkFailed>
    ensures { Writes S.stands S.faults out.old out.new (heading k command.now) result }
{
    let mut line = Line::new();
    line.put(b"\n");
    put_number(&mut line, number_in(command));
    put_word_of(&mut line, command);
    line.put(b" ");
    line.put_dec(u64::from(k));
    line.put(b"command ");
    out.write(line.as_slice())
}
