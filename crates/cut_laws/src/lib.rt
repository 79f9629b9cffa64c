//! Commands of a session that are run one after another: what is known between two of them, and what the whole came to,
//! also where the call was cut short.
//!
//! `specs/SoFar` has what is known after some commands that were answered. `specs/Laws` states that a session which was
//! cut short in a command goes on, as it might have, to its end.
#![tactic(auto)]

ghost use Rattle.cut_laws.specs.Laws.{BegunGoesOn};

use command_laws::each_command_does_something;
use session_laws::each_state_stands;

/// Commands that were done and one that was begun are the beginning of a whole session of a script, whatever the files
/// hold: one in which a file is unread only where the begun command left it so.
pub fn begun_commands_go_on()
    ensures { BegunGoesOn }
{
    each_command_does_something();
    each_state_stands();
}
