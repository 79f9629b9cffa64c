//! The top call.
ghost use Rattle.std.specs.Prelude.{◌≡◌, ◌⊎◌, ◌≤◌, false};
ghost use Rattle.uc_io.specs.Faults.{Rose};
ghost use Rattle.status_rule.specs.declared.status.Status.TheVariants.{Done, NoMemory};
ghost use Rattle.status_rule.specs.Causes.{ReadCause, WriteCause};
ghost use Rattle.status_rule.specs.Written.{Written};
ghost use Rattle.sleep_laws.specs.Cold.{ColdGroupsCatchUp};
ghost use Rattle.sleep_laws.specs.Sleep.{ResumesBringBack};
ghost use Rattle.tool_text.specs.Tool.{UsageCause};
ghost use Rattle.tool_text.specs.Words.{PlayOf};
ghost use Rattle.live_cli.specs.Able.{CanBeDone, AreInTime};
ghost use Rattle.live_cli.specs.Headline.{HoldingText};
ghost use Rattle.live_cli.specs.Loads.{LoadsInTime, LateLoads};
ghost use Rattle.live_cli.specs.Texts.{FromRuns, KeptBy, LiveText, SessionText};
ghost use Rattle.live_cli.specs.Words.{live_asked};

use crate::laws::each_text_holds;
use crate::words::read_words;
use command_laws::each_command_does_something;
use play_laws::{a_patient_schedule_is_done, an_outcome_in_time_is_done};
use round_laws::the_verdict_is_the_first_that_holds;
use sleep_laws::a_resume_brings_back;
use status_rule::{Status, after_write};
use std::alloc::Global;
use uc_bytes::Text;
use uc_cli::{Refusal, end_session, read_commands, read_machine, refuse};
use uc_io::{Files, Sink};
use uc_rendezvous::Rendezvous;
use uc_report::put_usage;
use uc_session::run_session;
use uc_topology::{TopoCause, TopoFault};

/// Reads a topology and then a script for it, and runs the script's commands, each written as it goes; or says why
/// there is nothing to run. The topology may have so many threads as the rendezvous takes.
fn play_live<F: Files, S: Sink, R: Rendezvous>(
    alloc: Global,
    topology: &Text,
    script: &Text,
    files: &mut F,
    out: &mut S,
    how: &mut R,
) -> Status
    ensures written { Written
        (FromRuns (F.tells files.old) (F.holds files.old) (KeptBy R.lists (R.runs how.old) (R.runs how.new) result)
        (SessionText (record { lists = R.lists; most = R.limit how.old }) topology.now script.now))
        (Rose (F.faults files.old) (F.faults files.new)) S.stands out.old out.new result }
    ensures usage { UsageCause (PlayOf topology.now script.now) result }
    ensures read_cause { ReadCause (F.faults files.old) (F.faults files.new) result }
    ensures write_cause { WriteCause (S.faults out.old) (S.faults out.new) result }
    ensures same { F.holds files.new ≡ F.holds files.old }
    ensures still { F.tells files.old → F.tells files.new }
    ensures later { F.faults files.old ≤ F.faults files.new }
    ensures most_stays { R.limit how.new ≡ R.limit how.old }
{
    each_command_does_something();
    let machine = match read_machine(alloc, topology, files) {
        Ok(machine) => machine,
        Err(refusal) => return refuse(out, refusal),
    };
    if machine.threads() > how.most() {
        let fault = TopoFault {
            line: 0,
            cause: TopoCause::LiveLimit,
        };
        return refuse(out, Refusal::BadTopology(fault));
    }
    let script = match read_commands(alloc, script, &machine, files) {
        Ok(script) => script,
        Err(refusal) => return refuse(out, refusal),
    };
    let answer = run_session(alloc, &machine, &script, how, files, out);
    end_session(out, answer)
}

/// Does all that the program `ucode_live` does: `words` are those after the program's name.
///
/// `written` says that the sink took a text of `LiveText`, for the bytes that were read and the rendezvous that were
/// held, and the status is that text's; after a write fault or want of memory it took a front of one. Where the files
/// tell what they hold, each read gave what its name holds; where `how` lists no items, what it keeps of its runs grew
/// by just the rendezvous of the text, but after a write fault or want of memory. `headline` says of what that text
/// shows to be done, for every set of files, topology and script: each update offered to a core is an accepted entry of
/// highest admissible revision for it; no revision falls while power stays on; a dropped rendezvous changes no
/// revision; and a reported success names only processors that hold their offered revision. (That no thread of a core
/// runs ordinary code from its write's begin until its primary's report is said of each step of a rendezvous, where
/// that lists no items.) The next clauses say that each status but `Done`, `BadInput`, `Short`, `Panicked` and
/// `NoMemory` has its cause in the words or in a count of faults; `same` and `still`, that every name still holds what
/// it held, and that files that told this still tell it. Two more are of each load in such a text: it is done where its
/// rendezvous is not late and no group with an offer refuses, and it says that a thread halted or gave up only where
/// its rendezvous is late. `resumes` and `cold` are of each session that such a text may be of: a resume brings up
/// every thread that was up before the suspend, and each group of such a thread has at least the revision that it
/// had, where it refuses no write then; every other group stays cold, and gets its cached patch with the first of
/// its threads that is brought online, where it does not refuse at that moment. `done`, of files that tell and a
/// rendezvous that lists no items: all is done, or memory ran out, where the files have a reading, the machine has
/// few enough threads, each command finds what it needs, no rendezvous was late, and no count of faults rose.
pub fn run_live<F: Files, S: Sink, R: Rendezvous>(
    alloc: Global,
    words: &[Text],
    files: &mut F,
    out: &mut S,
    how: &mut R,
) -> Status
    ensures written { Written
        (FromRuns (F.tells files.old) (F.holds files.old) (KeptBy R.lists (R.runs how.old) (R.runs how.new) result)
        (LiveText (record { lists = R.lists; most = R.limit how.old }) words.now))
        (Rose (F.faults files.old) (F.faults files.new)) S.stands out.old out.new result }
    ensures headline { Written
        (FromRuns (F.tells files.old) (F.holds files.old) (KeptBy R.lists (R.runs how.old) (R.runs how.new) result)
        (HoldingText (record { lists = R.lists; most = R.limit how.old }) (live_asked words.now)))
        (Rose (F.faults files.old) (F.faults files.new)) S.stands out.old out.new result }
    ensures usage { UsageCause (live_asked words.now) result }
    ensures read_cause { ReadCause (F.faults files.old) (F.faults files.new) result }
    ensures write_cause { WriteCause (S.faults out.old) (S.faults out.new) result }
    ensures same { F.holds files.new ≡ F.holds files.old }
    ensures still { F.tells files.old → F.tells files.new }
    ensures later { F.faults files.old ≤ F.faults files.new }
    ensures most_stays { R.limit how.new ≡ R.limit how.old }
    ensures loads_in_time { LoadsInTime }
    ensures late_loads { LateLoads }
    ensures resumes { ResumesBringBack }
    ensures cold { ColdGroupsCatchUp }
    ensures done { R.lists ≡ false → F.tells files.old →
        CanBeDone (R.limit how.old) (live_asked words.now) (F.holds files.old) →
        AreInTime (R.runs how.old) (R.runs how.new) →
        (Rose (F.faults files.old) (F.faults files.new) → ⊥) → (Rose (S.faults out.old) (S.faults out.new) → ⊥) →
        (result ≡ Done) ⊎ (result ≡ NoMemory) }
{
    a_resume_brings_back();
    each_text_holds();
    an_outcome_in_time_is_done();
    a_patient_schedule_is_done();
    the_verdict_is_the_first_that_holds();
    match read_words(words) {
        Ok(named) => play_live(alloc, named.topology, named.script, files, out, how),
        Err(index) => after_write(Status::Usage(index), put_usage(out, index)),
    }
}
