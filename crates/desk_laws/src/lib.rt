//! Laws of the desk, proved of its definition alone: each is the contract of a function that does nothing.
#![tactic(auto)]

ghost use Rattle.desk_laws.specs.Laws.{Begins, GoesOn, NoneRefuses, ReloadReplies};

use ctl_core::a_listed_run_is_played;
use play_laws::a_patient_schedule_is_done;
use round_laws::the_verdict_is_the_first_that_holds;

/// A machine that was booted without files has the empty history, and each call that is answered in the state where a
/// history ends makes it longer by its entry.
pub fn a_history_goes_on()
    ensures begins { Begins }
    ensures goes_on { GoesOn }
{}

/// Whatever calls were made, no group of cores refuses a write: no call of the desk makes one refuse.
pub fn no_core_refuses()
    ensures { NoneRefuses }
{}

/// A reload is done, or a thread that it needs is not up, the file is refused, nothing in it is offered, or its patches
/// do not fit. Its threads always meet in time: the schedule has rounds enough and no timeout, and no group refuses.
pub fn a_reload_has_five_replies()
    ensures { ReloadReplies }
{
    a_listed_run_is_played();
    a_patient_schedule_is_done();
    the_verdict_is_the_first_that_holds();
}
