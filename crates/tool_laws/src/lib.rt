//! Laws of the texts of `ucode`, proved of their definition alone: there is a text for all words and files; of each the
//! headline sentence holds, and each has its cause; and what can be done is done. Each law is the contract of a
//! function that only calls the laws that it rests on.
#![tactic(auto)]

ghost use Rattle.tool_laws.specs.Laws.{LinesHaveTexts, PlaysHaveTexts, GeneratedHaveTexts};
ghost use Rattle.tool_laws.specs.Laws.{TextsHold, TextsHaveCauses, DoneWhereItCan};

use command_laws::{each_command_does_something, what_a_load_leaves};
use gen_laws::{generated_script_is_read, generated_topology_is_read};
use play_laws::{
    a_patient_schedule_is_done, a_run_lowers_no_revision, each_run_holds, the_end_is_unlisted,
};
use round_laws::the_verdict_is_the_first_that_holds;
use session_laws::{each_offer_is_lent, each_state_stands, only_a_suspend_lets_a_revision_fall};

/// Whatever the words and the files are, there is a text for a run in which no read fails and each gives what is held.
pub fn some_text()
    ensures { LinesHaveTexts }
{
    some_session_text();
}

/// Whatever the files hold, there is a text for a session that is played, and for each number one of the session that
/// is generated from it, for a run in which no read fails and each gives what is held.
pub fn some_session_text()
    ensures played { PlaysHaveTexts }
    ensures generated { GeneratedHaveTexts }
{
    each_command_does_something();
    generated_topology_is_read();
    generated_script_is_read();
}

/// Where what a command line asks for can be done, a text of held reads is that of a run that did all, or of one in
/// which a read failed.
pub fn done_where_it_can_be()
    ensures { DoneWhereItCan }
{
    a_patient_schedule_is_done();
    the_verdict_is_the_first_that_holds();
}

/// Whatever a text shows to be done, the headline holds of it, for every set of files, topology, script and order of
/// the events that the script states.
pub fn each_text_holds()
    ensures { TextsHold }
{
    each_run_holds();
    the_end_is_unlisted();
    a_run_lowers_no_revision();
    only_a_suspend_lets_a_revision_fall();
    what_a_load_leaves();
    each_state_stands();
    each_offer_is_lent();
}

/// A text is that of a session that ended short, or with a thread that halted, exactly where its commands did what says
/// so.
pub fn each_text_has_its_cause()
    ensures { TextsHaveCauses }
{
    the_verdict_is_the_first_that_holds();
}
