//! One command, with its text.

ghost use Rattle.std.specs.Prelude.{◌≡◌, ◌≤◌, ◌++◌, Bool, false, [], length};
ghost use Rattle.session_steps.specs.script_text.declared.command.Command.TheVariants.{Boot};
ghost use Rattle.session_steps.specs.session_text.declared.answers.CommandAnswer.TheVariants.{Load};
ghost use Rattle.session_steps.specs.session_text.Lines.{answer_line};
ghost use Rattle.session_laws.specs.Standing.{Standing, InRange};
ghost use Rattle.session_steps.specs.State.{machine_of};
ghost use Rattle.session_steps.specs.Did.{ups_text};
ghost use Rattle.session_steps.specs.session_text.Headings.{names_in};
ghost use Rattle.session_steps.specs.Calls.{HeldWhere};
ghost use Rattle.session_steps.specs.Played.{IsPlayed, SinkCause, is_read_fault};
ghost use Rattle.session_steps.specs.Step.{SessionStep};
ghost use Rattle.session_parts.specs.Parts.{setting_of, state_of};
ghost use Rattle.uc_session.specs.declared.acted.Acted.{Acted as Done};
ghost use Rattle.uc_session.specs.Acts.{ReadsNoFile, did_by};
ghost use Rattle.uc_session.specs.Playing.{Tells, Does, BeatsInRange};

use crate::acted::Acted;
use crate::boots::boot;
use crate::loads::play_load;
use crate::plain::act;
use crate::rooms::Room;
use command_laws::each_command_does_something;
use session_parts::Parts;
use session_report::put_heading;
use session_steps::script_text::Command;
use session_steps::session_text::{LoadAnswer, Played};
use std::alloc::Global;
use uc_bytes::{NoMemory, Text};
use uc_io::{Files, Sink};
use uc_rendezvous::Rendezvous;
use update_reads::PIECE;

/// Writes the threads that came up, and the answer of a command with these names of files.
pub fn tell<S: Sink>(out: &mut S, names: &[Text], acted: &Acted) -> Played
    ensures { Tells S.stands S.faults out.old out.new
        (ups_text acted.now.ups.items ++ answer_line names.now acted.now.answer) acted.now.answer result }
{
    match acted.put(out, names) {
        Ok(()) => Played::Answered(acted.answer),
        Err(_) => Played::WriteFault,
    }
}

/// Writes the answer of a load that did not come to its rendezvous. Apart from its caller, since a function clears the
/// room of all its locals when it begins, and the table of threads that came up is large.
#[inline(never)]
pub fn tell_load<S: Sink>(out: &mut S, names: &[Text], answer: LoadAnswer) -> Played
    ensures { (acted : Done) × (acted.ups.items ≡ []) × (acted.answer ≡ Load answer)
        × Tells S.stands S.faults out.old out.new (ups_text acted.ups.items ++ answer_line names.now acted.answer)
        acted.answer result }
{
    tell(out, names, &Acted::load(answer))
}

/// The names of files that a command gives.
fn names_in(command: &Command) -> &[Text]
    ensures { result.now ≡ names_in command.now }
{
    match command {
        Command::Boot(names) | Command::Load { names, .. } => names.as_slice(),
        _ => &[],
    }
}

/// Boots with the files of these names, at most 16. The heading was written.
fn play_boot<R: Rendezvous, F: Files, S: Sink>(
    alloc: Global,
    parts: &mut Parts,
    names: &[Text],
    how: &R,
    files: &mut F,
    piece: &mut [u8; PIECE],
    out: &mut S,
) -> Played
    requires few { length names.now ≤ 16 }
    requires standing { Standing (setting_of parts.old) (state_of parts.old) }
    ensures does { Does
        (record {
          stands = S.stands;
          faults = S.faults;
          lists = R.lists;
          held = HeldWhere (F.tells files.old) (F.holds files.old);
        })
        (setting_of parts.old) (Boot names.now)
        (record { state = state_of parts.old; files = F.faults files.old; runs = R.runs how.now; sink = out.old })
        (record { state = state_of parts.new; files = F.faults files.new; runs = R.runs how.now; sink = out.new })
        result }
    ensures setting { setting_of parts.new ≡ setting_of parts.old }
    ensures same { F.holds files.new ≡ F.holds files.old }
    ensures still { F.tells files.old → F.tells files.new }
    ensures later { F.faults files.old ≤ F.faults files.new }
{
    each_command_does_something();
    // Read for its contract: every thread is on a core of the machine, and every core in a group.
    let _topology = parts.topology();
    match boot(alloc, parts, names, files, piece) {
        Ok(acted) => tell(out, names, &acted),
        Err(NoMemory) => Played::NoMemory,
    }
}

/// Does a command that reads no file, and writes its text. The heading was written. Apart from its caller as
/// `tell_load` is.
#[inline(never)]
fn play_plain<S: Sink>(parts: &mut Parts, command: &Command, out: &mut S) -> Played
    requires plain { ReadsNoFile command.now }
    requires range { InRange (setting_of parts.old) command.now }
    requires standing { Standing (setting_of parts.old) (state_of parts.old) }
    ensures acted { (acted : Done) × (is_read_fault acted.answer ≡ false)
        × ((lists : Bool) →
        SessionStep lists (setting_of parts.old) (state_of parts.old) command.now
        (did_by [] acted (state_of parts.new)))
        × Tells S.stands S.faults out.old out.new
        (ups_text acted.ups.items ++ answer_line (names_in command.now) acted.answer)
        acted.answer result }
    ensures setting { setting_of parts.new ≡ setting_of parts.old }
{
    tell(out, names_in(command), &act(parts, command))
}

/// Does a command, number `number` of its script, and writes its text. After a write fault in what a load shows, or for
/// want of memory, the parts are as before; after a later write fault they are in the state after the command. The room
/// is lent to a load.
pub fn play<R: Rendezvous, F: Files, S: Sink>(
    alloc: Global,
    parts: &mut Parts,
    room: &mut Room,
    command: &Command,
    number: u32,
    how: &mut R,
    files: &mut F,
    out: &mut S,
) -> Played
    requires range { InRange (setting_of parts.old) command.now }
    requires beats { BeatsInRange (machine_of (setting_of parts.old)).threads command.now }
    requires most { (machine_of (setting_of parts.old)).threads ≤ R.limit how.old }
    requires standing { Standing (setting_of parts.old) (state_of parts.old) }
    ensures played { IsPlayed
        (record {
          stands = S.stands;
          faults = S.faults;
          lists = R.lists;
          held = HeldWhere (F.tells files.old) (F.holds files.old);
        })
        (setting_of parts.old) number command.now
        (record { state = state_of parts.old; files = F.faults files.old; runs = R.runs how.old; sink = out.old })
        (record { state = state_of parts.new; files = F.faults files.new; runs = R.runs how.new; sink = out.new })
        result }
    ensures setting { setting_of parts.new ≡ setting_of parts.old }
    ensures same { F.holds files.new ≡ F.holds files.old }
    ensures still { F.tells files.old → F.tells files.new }
    ensures later { F.faults files.old ≤ F.faults files.new }
    ensures sink_later { S.faults out.old ≤ S.faults out.new }
    ensures sink_cause { SinkCause result (S.faults out.old) (S.faults out.new) }
    ensures most_stays { R.limit how.new ≡ R.limit how.old }
{
    each_command_does_something();
    // Read for its contract: every thread is on a core of the machine, and every core in a group.
    let _topology = parts.topology();
    match put_heading(out, number, command) {
        Ok(()) => {}
        Err(_) => return Played::WriteFault,
    }
    match command {
        Command::Boot(names) => play_boot(
            alloc,
            parts,
            names.as_slice(),
            how,
            files,
            &mut room.piece,
            out,
        ),
        Command::Load {
            force,
            names,
            beats,
        } => play_load(
            alloc,
            parts,
            room,
            *force,
            names.as_slice(),
            beats.as_slice(),
            how,
            files,
            out,
        ),
        _ => play_plain(parts, command, out),
    }
}
