//! The lines between a heading and its answer.
ghost use Rattle.std.specs.Prelude.{◌≡◌, ◌+◌, ◌≤◌, ◌++◌, length};
ghost use Rattle.uc_io.specs.Writing.{Writes};
ghost use Rattle.report_text.specs.Lines.{safe_text};
ghost use Rattle.rendezvous_steps.specs.ItemText.{result_text};
ghost use Rattle.session_text.specs.Lines.{up_line, written_text, load_offer_line, end_text, cpu_line, core_line};
ghost use Rattle.session_steps.specs.Did.{ups_text};

use entry_model::EntryFacts;
use machine_steps::{BringUp, Written};
use rendezvous_steps::{End, ThreadResult};
use uc_bytes::Vendor;
use uc_io::{Sink, SinkFailed};
use uc_report::Line;

/// Puts whether a thread that came up wrote its patch.
fn put_written(line: &mut Line, written: Written)
    requires { 8 + length line.old ≤ 160 }
    ensures bytes { line.new ≡ written_text written ++ line.old }
    ensures len { length line.new ≤ 8 + length line.old }
{
    match written {
        Written::No => {}
        Written::Wrote => line.put(b" wrote"),
        Written::Refused => line.put(b" refused"),
    }
}

/// `up T rev HEX`, and ` wrote` or ` refused`: a thread that came up, with the revision of its group then.
#[tactic(auto, unfolding(session_text::specs::Lines::up_line))]
pub fn put_up<S: Sink>(out: &mut S, up: &BringUp) -> Result<(), SinkFailed>
    ensures { Writes S.stands S.faults out.old out.new (up_line up.now) result }
{
    let mut line = Line::new();
    line.put(b"\n");
    put_written(&mut line, up.written);
    line.put_hex(up.rev);
    line.put(b" rev ");
    line.put_dec(u64::from(up.thread));
    line.put(b"up ");
    out.write(line.as_slice())
}

/// The lines of the threads that came up, in their order.
pub fn put_ups<S: Sink>(out: &mut S, ups: &[BringUp]) -> Result<(), SinkFailed>
    ensures { Writes S.stands S.faults out.old out.new (ups_text ups.now) result }
{
    for up in ups {
        put_up(out, up)?;
    }
    Ok(())
}

/// Puts ` safe` for an update whose own minimum the revision reaches.
fn put_safe(line: &mut Line, facts: &EntryFacts, rev: u32)
    requires { 5 + length line.old ≤ 160 }
    ensures bytes { line.new ≡ safe_text facts.now.vendor facts.now.min rev ++ line.old }
    ensures len { length line.new ≤ 5 + length line.old }
{
    match facts.vendor {
        Vendor::Intel if facts.min != 0 && facts.min <= rev => line.put(b" safe"),
        _ => {}
    }
}

/// `offer core C entry N len LEN rev HEX`, and ` safe` where a load is safe by what the update itself says: a core at a
/// revision, and the entry that its group is offered.
#[tactic(auto, unfolding(session_text::specs::Lines::load_offer_line))]
pub fn put_load_offer<S: Sink>(
    out: &mut S,
    core: u16,
    rev: u32,
    number: u32,
    facts: &EntryFacts,
) -> Result<(), SinkFailed>
    ensures { Writes S.stands S.faults out.old out.new (load_offer_line core rev number facts.now) result }
{
    let mut line = Line::new();
    line.put(b"\n");
    put_safe(&mut line, facts, rev);
    line.put_hex(facts.rev);
    line.put(b" rev ");
    line.put_dec(facts.len);
    line.put(b" len ");
    line.put_dec(u64::from(number));
    line.put(b" entry ");
    line.put_dec(u64::from(core));
    line.put(b"offer core ");
    out.write(line.as_slice())
}

/// Puts what a thread leaves with.
fn put_result(line: &mut Line, left: ThreadResult)
    requires { 7 + length line.old ≤ 160 }
    ensures bytes { line.new ≡ result_text left ++ line.old }
    ensures len { length line.new ≤ 7 + length line.old }
{
    match left {
        ThreadResult::Updated => line.put(b"updated"),
        ThreadResult::Okay => line.put(b"ok"),
        ThreadResult::Current => line.put(b"current"),
        ThreadResult::Error => line.put(b"error"),
        ThreadResult::Timeout => line.put(b"timeout"),
        ThreadResult::Offline => line.put(b"offline"),
    }
}

/// Puts how a thread came out of a rendezvous.
fn put_end(line: &mut Line, end: End)
    requires { 10 + length line.old ≤ 160 }
    ensures bytes { line.new ≡ end_text end ++ line.old }
    ensures len { length line.new ≤ 10 + length line.old }
{
    match end {
        End::Left(left) => put_result(line, left),
        End::Halted => line.put(b"halted"),
        End::Withdrawn => line.put(b"withdrawn"),
        End::Unfinished => line.put(b"unfinished"),
        End::Absent => {}
    }
}

/// `cpu T END`: how a thread came out of a rendezvous.
#[tactic(auto, unfolding(session_text::specs::Lines::cpu_line))]
pub fn put_cpu<S: Sink>(out: &mut S, t: u16, end: End) -> Result<(), SinkFailed>
    ensures { Writes S.stands S.faults out.old out.new (cpu_line t end) result }
{
    let mut line = Line::new();
    line.put(b"\n");
    put_end(&mut line, end);
    line.put(b" ");
    line.put_dec(u64::from(t));
    line.put(b"cpu ");
    out.write(line.as_slice())
}

/// `core C rev HEX`: a core, with the revision of its group.
#[tactic(auto, unfolding(session_text::specs::Lines::core_line))]
pub fn put_core<S: Sink>(out: &mut S, core: u16, rev: u32) -> Result<(), SinkFailed>
    ensures { Writes S.stands S.faults out.old out.new (core_line core rev) result }
{
    let mut line = Line::new();
    line.put(b"\n");
    line.put_hex(rev);
    line.put(b" rev ");
    line.put_dec(u64::from(core));
    line.put(b"core ");
    out.write(line.as_slice())
}
