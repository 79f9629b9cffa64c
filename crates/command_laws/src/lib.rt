//! Laws of what the commands of a session come to: that each does something, and what a load leaves. Each law is the
//! contract of a function that does nothing; `specs/` states them, and they stand on the laws of states that stand.
#![tactic(auto)]

ghost use Rattle.command_laws.specs.Left.{LoadsLeave};
ghost use Rattle.command_laws.specs.Steps.{StepsExist, SessionsExist};

use play_laws::each_event_keeps_the_rule;
use round_laws::the_verdict_is_the_first_that_holds;
use session_laws::{each_plan_is_sound, each_state_stands};

/// Whatever the files hold, each command does something in every state that stands, and so does each list of commands
/// from such a state on, where every sound plan has a run. No file is left unread.
pub fn each_command_does_something()
    ensures step { StepsExist }
    ensures session { SessionsExist }
{
    the_verdict_is_the_first_that_holds();
    each_plan_is_sound();
    each_state_stands();
}

/// A dropped rendezvous changes no revision, and a thread that left with success stands in a group that runs its offer
/// and caches its patch.
pub fn what_a_load_leaves()
    ensures { LoadsLeave }
{
    each_event_keeps_the_rule();
}
