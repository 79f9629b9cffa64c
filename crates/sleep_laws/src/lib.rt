//! Laws of suspend and resume over whole sessions. Each law is the contract of a function that does nothing.
//!
//! `specs/` states them: `PowerUp` says what a group comes to when power is switched on, and that no group ever runs
//! more; `Sleep` what a resume brings back of what was up before the suspend; `Cold` what becomes of the other groups.
#![tactic(auto)]

ghost use Rattle.sleep_laws.specs.Cold.{ColdGroupsCatchUp};
ghost use Rattle.sleep_laws.specs.PowerUp.{StatesAreBacked};
ghost use Rattle.sleep_laws.specs.Sleep.{ResumesBringBack, SleepGoesOn, SuspendsSleep};

use play_laws::each_event_keeps_the_rule;
use session_laws::{each_offer_is_lent, each_state_stands};

/// In every state of a session each group runs the firmware's revision or less than it, or what its cached patch would
/// bring again: a load leaves no group with a revision that a power-up would take from it.
pub fn each_revision_is_backed()
    ensures { StatesAreBacked }
{
    each_event_keeps_the_rule();
    each_offer_is_lent();
    each_state_stands();
}

/// Over a session: a resume brings up every thread that was up before the suspend, and each group of such a thread has
/// at least the revision that it had, where it refuses no write then. A group none of whose threads was up stays cold,
/// and gets its cached patch with the first of its threads that is brought online. A group that refuses the write of
/// its patch stays at the firmware's revision.
pub fn a_resume_brings_back()
    ensures suspend { SuspendsSleep }
    ensures asleep { SleepGoesOn }
    ensures resume { ResumesBringBack }
    ensures cold { ColdGroupsCatchUp }
{
    each_event_keeps_the_rule();
    each_offer_is_lent();
    each_state_stands();
}
