//! The commands that read no file.

ghost use Rattle.std.specs.Prelude.{◌≡◌, Bool, false, []};
ghost use Rattle.session_laws.specs.Standing.{Standing, InRange};
ghost use Rattle.session_steps.specs.Played.{is_read_fault};
ghost use Rattle.session_steps.specs.Step.{SessionStep};
ghost use Rattle.session_parts.specs.Parts.{setting_of, state_of};
ghost use Rattle.uc_session.specs.Acts.{ReadsNoFile, did_by};

use crate::acted::Acted;
use session_parts::Parts;
use session_steps::script_text::Command;
use session_steps::session_text::CommandAnswer;

/// Does a command that reads no file.
pub fn act(parts: &mut Parts, command: &Command) -> Acted
    requires plain { ReadsNoFile command.now }
    requires range { InRange (setting_of parts.old) command.now }
    requires standing { Standing (setting_of parts.old) (state_of parts.old) }
    ensures step { (lists : Bool) →
        SessionStep lists (setting_of parts.old) (state_of parts.old) command.now
        (did_by [] result (state_of parts.new)) }
    ensures read { is_read_fault result.answer ≡ false }
    ensures setting { setting_of parts.new ≡ setting_of parts.old }
{
    match command {
        Command::Online(t) => Acted::by_bring_up(parts.bring_online(*t)),
        Command::Offline(t) => Acted::by_row(parts.take_offline(*t)),
        Command::Suspend => Acted::by_row(parts.suspend()),
        Command::Resume => Acted::by_bring_ups(parts.wake()),
        Command::Refuse(core) => {
            parts.set_refuse(*core, true);
            Acted::only(CommandAnswer::Done)
        }
        Command::Accept(core) => {
            parts.set_refuse(*core, false);
            Acted::only(CommandAnswer::Done)
        }
        Command::Boot(_) | Command::Load { .. } => Acted::only(CommandAnswer::Done),
    }
}
