//! The lines of errors, each composed in one piece.
ghost use Rattle.std.specs.Prelude.{◌≡◌, ◌≤◌, length};
ghost use Rattle.uc_io.specs.Writing.{Writes};
ghost use Rattle.report_text.specs.Lines.{usage_line, unread_line, fault_line, topology_line, no_entry_line};
ghost use Rattle.report_text.specs.Lines.{cause_text, topo_cause_text};
ghost use Rattle.uc_report.specs.Names.{cause_name};

use arrayvec::ArrayVec;
use uc_bytes::{FileCause, FileFault, Text};
use uc_io::{Sink, SinkFailed, write_line};
use uc_text::dec;
use uc_topology::{TopoCause, TopoFault};

/// `usage K`.
pub fn put_usage<S: Sink>(out: &mut S, index: u32) -> Result<(), SinkFailed>
    ensures { Writes S.stands S.faults out.old out.new (usage_line index) result }
{
    let index = dec(u64::from(index));
    write_line(out, &[b"usage ", index.as_slice(), b"\n"])
}

/// `error read NAME`.
pub fn put_unread<S: Sink>(out: &mut S, name: &Text) -> Result<(), SinkFailed>
    ensures { Writes S.stands S.faults out.old out.new (unread_line name.now) result }
{
    write_line(out, &[b"error read ", name.as_str().as_bytes(), b"\n"])
}

/// `error file NAME at OFFSET CAUSE`, the offset in bytes.
#[tactic(auto, unfolding(report_text::specs::Lines::fault_line))]
pub fn put_fault<S: Sink>(out: &mut S, name: &Text, fault: FileFault) -> Result<(), SinkFailed>
    ensures { Writes S.stands S.faults out.old out.new (fault_line name.now fault.offset fault.cause) result }
{
    let offset = dec(fault.offset);
    let cause = cause_text(fault.cause);
    write_line(
        out,
        &[
            b"error file ",
            name.as_str().as_bytes(),
            b" at ",
            offset.as_slice(),
            b" ",
            cause.as_slice(),
            b"\n",
        ],
    )
}

/// The words for a cause; those for a table's entry lack its number.
fn cause_name(cause: FileCause) -> &'static str
    ensures text { result.now ≡ cause_name cause }
    ensures short { length result.now ≤ 15 }
{
    match cause {
        FileCause::Short => "short",
        FileCause::SizeUnaligned => "size-unaligned",
        FileCause::TotalSmall => "total-small",
        FileCause::DataPastTotal => "data-past-total",
        FileCause::Version => "version",
        FileCause::Truncated => "truncated",
        FileCause::ExtCut => "ext-cut",
        FileCause::ExtCount => "ext-count",
        FileCause::ExtSum => "ext-sum",
        FileCause::EntrySum(_) => "entry-sum ",
        FileCause::Sum => "sum",
        FileCause::EquivShort => "equiv-short",
        FileCause::Magic => "magic",
        FileCause::EquivType => "equiv-type",
        FileCause::TableSmall => "table-small",
        FileCause::TableCut => "table-cut",
        FileCause::SectionShort => "section-short",
        FileCause::SectionType => "section-type",
        FileCause::PatchSmall => "patch-small",
        FileCause::PatchCut => "patch-cut",
        FileCause::FamilySize => "family-size",
        FileCause::Chipset => "chipset",
        FileCause::TooMany => "too-many",
        FileCause::TooLong => "too-long",
    }
}

/// The text of a cause, with the number of the entry where it has one.
pub fn cause_text(cause: FileCause) -> ArrayVec<u8, 35>
    ensures { result.items ≡ cause_text cause }
{
    let mut text = ArrayVec::new();
    text.try_extend_from_slice(cause_name(cause).as_bytes())
        .unwrap();
    if let FileCause::EntrySum(entry) = cause {
        text.try_extend_from_slice(dec(u64::from(entry)).as_slice())
            .unwrap();
    }
    text
}

/// `error topology line LINE CAUSE`.
#[tactic(auto, unfolding(report_text::specs::Lines::topology_line))]
pub fn put_topology_fault<S: Sink>(out: &mut S, fault: TopoFault) -> Result<(), SinkFailed>
    ensures { Writes S.stands S.faults out.old out.new (topology_line fault.line fault.cause) result }
{
    let line = dec(u64::from(fault.line));
    let cause = topology_cause(fault.cause);
    write_line(
        out,
        &[
            b"error topology line ",
            line.as_slice(),
            b" ",
            cause.as_bytes(),
            b"\n",
        ],
    )
}

/// The words for a topology's cause.
fn topology_cause(cause: TopoCause) -> &'static str
    ensures { result.now ≡ topo_cause_text cause }
{
    match cause {
        TopoCause::Head => "head",
        TopoCause::Word => "word",
        TopoCause::Number => "number",
        TopoCause::Order => "order",
        TopoCause::NoCore => "no-core",
        TopoCause::TooMany => "too-many",
        TopoCause::EmptyCore => "empty-core",
        TopoCause::TooLong => "too-long",
        TopoCause::LiveLimit => "live-limit",
        TopoCause::Disagree => "disagree",
    }
}

/// `error entry N`, of a number that no entry has.
pub fn put_no_entry<S: Sink>(out: &mut S, number: u64) -> Result<(), SinkFailed>
    ensures { Writes S.stands S.faults out.old out.new (no_entry_line number) result }
{
    let number = dec(number);
    write_line(out, &[b"error entry ", number.as_slice(), b"\n"])
}
