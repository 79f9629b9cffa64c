//! The answer of a command.
ghost use Rattle.std.specs.Prelude.{◌≡◌, ◌≤◌, ◌++◌, codes, decimal, length};
ghost use Rattle.uc_io.specs.Writing.{Writes};
ghost use Rattle.session_text.specs.declared.answers.CommandAnswer.TheVariants.{Load};
ghost use Rattle.session_text.specs.Lines.{answer_line, bad_file_text, hot_text, name_at};

use machine_steps::HotAnswer;
use session_text::{CommandAnswer, LoadAnswer};
use uc_bytes::{FileFault, Text};
use uc_io::{Sink, SinkFailed, write_line};
use uc_report::{Line, cause_text};
use uc_text::dec;

/// `answer WORD`. The word has at most 20 bytes.
#[inline(always)]
fn put_word<S: Sink>(out: &mut S, word: &str) -> Result<(), SinkFailed>
    requires { length word.now ≤ 20 }
    ensures { Writes S.stands S.faults out.old out.new (codes "answer " ++ word.now ++ codes "\n") result }
{
    let mut line = Line::new();
    line.put(b"\n");
    line.put(word.as_bytes());
    line.put(b"answer ");
    out.write(line.as_slice())
}

/// `answer WORD N`, the word being given with the space behind it. It has at most 20 bytes.
fn put_numbered<S: Sink>(out: &mut S, word: &str, number: u64) -> Result<(), SinkFailed>
    requires { length word.now ≤ 20 }
    ensures { Writes S.stands S.faults out.old out.new
        (codes "answer " ++ word.now ++ decimal number ++ codes "\n") result }
{
    let mut line = Line::new();
    line.put(b"\n");
    line.put_dec(number);
    line.put(word.as_bytes());
    line.put(b"answer ");
    out.write(line.as_slice())
}

/// What the machine refuses.
fn put_hot<S: Sink>(out: &mut S, answer: HotAnswer) -> Result<(), SinkFailed>
    ensures { Writes S.stands S.faults out.old out.new (codes "answer " ++ hot_text answer ++ codes "\n") result }
{
    match answer {
        HotAnswer::NotUp(t) => put_numbered(out, "not-up ", u64::from(t)),
        HotAnswer::IsUp(t) => put_numbered(out, "is-up ", u64::from(t)),
        HotAnswer::BootThread => put_word(out, "boot-thread"),
        HotAnswer::PoweredDown => put_word(out, "powered-down"),
        HotAnswer::Booted => put_word(out, "booted"),
        HotAnswer::NotAsleep => put_word(out, "not-asleep"),
    }
}

/// The name of the file in a place; past the last one nothing.
fn name_at<'a>(names: &'a [Text], file: u16) -> &'a [u8]
    ensures { result.now ≡ name_at names.now file }
{
    match names.get(usize::from(file)) {
        Some(name) => name.as_str().as_bytes(),
        None => b"",
    }
}

/// `answer bad-file NAME at OFFSET CAUSE`.
fn put_bad_file<S: Sink>(out: &mut S, name: &[u8], fault: FileFault) -> Result<(), SinkFailed>
    ensures { Writes S.stands S.faults out.old out.new
        (codes "answer " ++ bad_file_text name.now fault ++ codes "\n") result }
{
    let offset = dec(fault.offset);
    let cause = cause_text(fault.cause);
    write_line(
        out,
        &[
            b"answer bad-file ",
            name,
            b" at ",
            offset.as_slice(),
            b" ",
            cause.as_slice(),
            b"\n",
        ],
    )
}

/// `answer read-fault NAME`.
fn put_read_fault<S: Sink>(out: &mut S, name: &[u8]) -> Result<(), SinkFailed>
    ensures { Writes S.stands S.faults out.old out.new
        (codes "answer " ++ (codes "read-fault " ++ name.now) ++ codes "\n") result }
{
    write_line(out, &[b"answer read-fault ", name, b"\n"])
}

/// What a load came to.
#[tactic(auto, unfolding(session_text::specs::Lines::answer_line))]
fn put_load<S: Sink>(out: &mut S, names: &[Text], answer: LoadAnswer) -> Result<(), SinkFailed>
    ensures { Writes S.stands S.faults out.old out.new (answer_line names.now (Load answer)) result }
{
    match answer {
        LoadAnswer::Done => put_word(out, "done"),
        LoadAnswer::Busy(t) => put_numbered(out, "busy ", u64::from(t)),
        LoadAnswer::ReadFault(file) => put_read_fault(out, name_at(names, file)),
        LoadAnswer::BadFile(file, fault) => put_bad_file(out, name_at(names, file), fault),
        LoadAnswer::NotFound => put_word(out, "not-found"),
        LoadAnswer::PoolFull(needed) => put_numbered(out, "pool-full ", u64::from(needed)),
        LoadAnswer::Panicked(t) => put_numbered(out, "panicked ", u64::from(t)),
        LoadAnswer::Unfinished(t) => put_numbered(out, "unfinished ", u64::from(t)),
        LoadAnswer::OfflineSilent(kicks) => {
            put_numbered(out, "offline-silent ", u64::from(kicks))
        }
        LoadAnswer::TimedOut(t) => put_numbered(out, "timed-out ", u64::from(t)),
        LoadAnswer::Failed(t) => put_numbered(out, "failed ", u64::from(t)),
        LoadAnswer::Incomplete(t) => put_numbered(out, "incomplete ", u64::from(t)),
    }
}

/// The answer of a command with these names of files, by which an answer tells a file.
#[tactic(auto, unfolding(session_text::specs::Lines::answer_line))]
pub fn put_answer<S: Sink>(
    out: &mut S,
    names: &[Text],
    answer: CommandAnswer,
) -> Result<(), SinkFailed>
    ensures { Writes S.stands S.faults out.old out.new (answer_line names.now answer) result }
{
    match answer {
        CommandAnswer::Done => put_word(out, "done"),
        CommandAnswer::Hot(answer) => put_hot(out, answer),
        CommandAnswer::Load(answer) => put_load(out, names, answer),
    }
}
