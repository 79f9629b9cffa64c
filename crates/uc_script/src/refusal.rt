//! The line on a script that is refused.
ghost use Rattle.std.specs.Prelude.{◌≡◌};
ghost use Rattle.uc_io.specs.Writing.{Writes};
ghost use Rattle.script_text.specs.Lines.{script_line, script_cause_text};

use script_text::{ScriptCause, ScriptFault};
use uc_io::{Sink, SinkFailed, write_line};
use uc_text::dec;

/// `error script line LINE CAUSE`, in one write.
#[tactic(auto, unfolding(script_text::specs::Lines::script_line))]
pub fn put_script_fault<S: Sink>(out: &mut S, fault: ScriptFault) -> Result<(), SinkFailed>
    ensures { Writes S.stands S.faults out.old out.new (script_line fault.line fault.cause) result }
{
    let line = dec(u64::from(fault.line));
    let cause = script_cause(fault.cause);
    write_line(
        out,
        &[
            b"error script line ",
            line.as_slice(),
            b" ",
            cause.as_bytes(),
            b"\n",
        ],
    )
}

/// The words for a script's cause.
fn script_cause(cause: ScriptCause) -> &'static str
    ensures { result.now ≡ script_cause_text cause }
{
    match cause {
        ScriptCause::Head => "head",
        ScriptCause::Word => "word",
        ScriptCause::Number => "number",
        ScriptCause::Range => "range",
        ScriptCause::NoEnd => "no-end",
        ScriptCause::TooMany => "too-many",
        ScriptCause::TooLong => "too-long",
    }
}
