ghost use Rattle.std.specs.Prelude.{◌≡◌, ◌⊎◌, ◌≤◌};
ghost use Rattle.uc_io.specs.Faults.{Rose};
ghost use Rattle.status_rule.specs.declared.status.Status.TheVariants.{Done, NoMemory};
ghost use Rattle.status_rule.specs.Causes.{ReadCause, WriteCause};
ghost use Rattle.status_rule.specs.Written.{Written};
ghost use Rattle.sleep_laws.specs.Cold.{ColdGroupsCatchUp};
ghost use Rattle.sleep_laws.specs.Sleep.{ResumesBringBack};
ghost use Rattle.tool_text.specs.Ends.{CausedText};
ghost use Rattle.tool_text.specs.Headline.{HoldingText};
ghost use Rattle.tool_text.specs.Tool.{AskedText, ToolText, FromReads, UsageCause, CanBeDone};
ghost use Rattle.tool_text.specs.Words.{asked};
ghost use Rattle.uc_cli.specs.Ends.{MayEnd};
ghost use Rattle.uc_cli.specs.Words.{asked_of, HasFewNames};

use crate::generate::generate;
use crate::list::list;
use crate::play::play;
use crate::select::select;
use crate::show::show;
use crate::words::{Command, read_words};
use sleep_laws::a_resume_brings_back;
use status_rule::{Status, after_write};
use std::alloc::Global;
use tool_laws::{done_where_it_can_be, each_text_has_its_cause, each_text_holds};
use uc_bytes::Text;
use uc_io::{Files, Sink};
use uc_report::put_usage;

/// Runs a command.
fn run<F: Files, S: Sink>(alloc: Global, command: Command<'_>, files: &mut F, out: &mut S) -> Status
    requires { HasFewNames command }
    ensures written { Written (FromReads (F.tells files.old) (F.holds files.old) (AskedText (asked_of command.entry))) (Rose (F.faults files.old) (F.faults files.new)) S.stands out.old out.new result }
    ensures usage { UsageCause (asked_of command.entry) result }
    ensures read_cause { ReadCause (F.faults files.old) (F.faults files.new) result }
    ensures write_cause { WriteCause (S.faults out.old) (S.faults out.new) result }
    ensures same { F.holds files.new ≡ F.holds files.old }
    ensures still { F.tells files.old → F.tells files.new }
    ensures later { F.faults files.old ≤ F.faults files.new }
{
    match command {
        Command::List(names) => list(alloc, names, files, out),
        Command::Show(name, number) => show(alloc, name, number, files, out),
        Command::Select(topology, names) => select(alloc, topology, names, files, out),
        Command::Play(topology, script) => play(alloc, topology, script, files, out),
        Command::Gen(number) => generate(alloc, number, out),
    }
}

/// Does all that the program `ucode` does: `words` are those after the program's name.
///
/// `written` says that the sink took a text of `ToolText`, for the bytes that were read, and the status is that
/// text's; after a write fault or want of memory it took a front of one. Where the files tell what they hold, each
/// read gave what its name holds. `headline` says of what that text shows to be done, for every set of files,
/// topology, script and order of events: each update offered to a core is an accepted entry of highest admissible
/// revision for it; from its write's begin until its primary's report no thread of that core runs ordinary code; no
/// revision falls while power stays on; a dropped rendezvous changes no revision; and a reported success names only
/// processors that hold their offered revision. `session` says that the text's status is `Short` exactly where some
/// command was not done and none ended the session with a status of its own, and `Panicked` exactly where a thread
/// halted in a load; `ends`, that only a session is short, and only in one a thread panics. The next clauses say that
/// the other statuses but `Done`, `BadInput` and `NoMemory` have their cause in the words or in a count of faults;
/// `same` and `still`, that every name still holds what it held, and that files that told this still tell it.
/// `resumes` and `cold` are of each session that such a text may be of: a resume brings up every thread that was up
/// before the suspend, and each group of such a thread has at least the revision that it had, where it refuses no
/// write then; every other group stays cold, and gets its cached patch with the first of its threads that is brought
/// online, where it does not refuse at that moment. `done`, of files that tell: all is done, or memory ran out, where
/// every file has a reading, a number is that of an entry, each command of a session finds what it needs, and no
/// count of faults rose.
pub fn run_tool<F: Files, S: Sink>(
    alloc: Global,
    words: &[Text],
    files: &mut F,
    out: &mut S,
) -> Status
    ensures written { Written (FromReads (F.tells files.old) (F.holds files.old) (ToolText words.now)) (Rose (F.faults files.old) (F.faults files.new)) S.stands out.old out.new result }
    ensures headline { Written (FromReads (F.tells files.old) (F.holds files.old) (HoldingText (asked words.now))) (Rose (F.faults files.old) (F.faults files.new)) S.stands out.old out.new result }
    ensures session { Written (FromReads (F.tells files.old) (F.holds files.old) (CausedText (asked words.now))) (Rose (F.faults files.old) (F.faults files.new)) S.stands out.old out.new result }
    ensures usage { UsageCause (asked words.now) result }
    ensures ends { MayEnd (asked words.now) result }
    ensures read_cause { ReadCause (F.faults files.old) (F.faults files.new) result }
    ensures write_cause { WriteCause (S.faults out.old) (S.faults out.new) result }
    ensures same { F.holds files.new ≡ F.holds files.old }
    ensures still { F.tells files.old → F.tells files.new }
    ensures later { F.faults files.old ≤ F.faults files.new }
    ensures resumes { ResumesBringBack }
    ensures cold { ColdGroupsCatchUp }
    ensures done { F.tells files.old → CanBeDone (asked words.now) (F.holds files.old) → (Rose (F.faults files.old) (F.faults files.new) → ⊥) → (Rose (S.faults out.old) (S.faults out.new) → ⊥) → (result ≡ Done) ⊎ (result ≡ NoMemory) }
{
    a_resume_brings_back();
    each_text_holds();
    each_text_has_its_cause();
    done_where_it_can_be();
    match read_words(words) {
        Ok(command) => run(alloc, command, files, out),
        Err(index) => after_write(Status::Usage(index), put_usage(out, index)),
    }
}
