//! The lines on files, their entries and what a core is offered, each composed in one piece.
ghost use Rattle.std.specs.Prelude.{◌≡◌, ◌+◌, ◌≤◌, ◌++◌, ℕ, List, [], length};
ghost use Rattle.uc_io.specs.Writing.{Writes};
ghost use Rattle.report_text.specs.Lines.{file_line, update_line, patch_line, pair_line, sig_line, offer_line};
ghost use Rattle.report_text.specs.Lines.{no_offer_line, vendor_text, digit_pair, day_text, min_text, safe_text};
ghost use Rattle.report_text.specs.Lines.{IsDateText};
ghost use Rattle.report_text.specs.Listing.{AreDateTexts, entry_line};

use crate::line::Line;
use arrayvec::ArrayVec;
use entry_model::EntryFacts;
use intel_header::day_of;
use uc_bytes::{Text, Vendor};
use uc_io::{Sink, SinkFailed, write_line};
use uc_text::{dec, hex8};

/// The name of a vendor, as it is printed.
fn vendor_text(vendor: Vendor) -> ArrayVec<u8, 5>
    ensures { result.items ≡ vendor_text vendor }
{
    let mut text = ArrayVec::new();
    match vendor {
        Vendor::Intel => text.try_extend_from_slice(b"intel").unwrap(),
        Vendor::Amd => text.try_extend_from_slice(b"amd").unwrap(),
    }
    text
}

/// `file F NAME VENDOR K`: a file by its number and name, with how many entries it has.
#[tactic(auto, unfolding(report_text::specs::Lines::file_line))]
pub fn put_file<S: Sink>(
    out: &mut S,
    number: u32,
    name: &Text,
    vendor: Vendor,
    entries: u32,
) -> Result<(), SinkFailed>
    ensures { Writes S.stands S.faults out.old out.new (file_line number name.now vendor entries) result }
{
    let number = dec(u64::from(number));
    let vendor = vendor_text(vendor);
    let entries = dec(u64::from(entries));
    write_line(
        out,
        &[
            b"file ",
            number.as_slice(),
            b" ",
            name.as_str().as_bytes(),
            b" ",
            vendor.as_slice(),
            b" ",
            entries.as_slice(),
            b"\n",
        ],
    )
}

/// The characters of the two digits in a byte.
fn digit_pair(byte: u8) -> [u8; 2]
    ensures { result ≡ digit_pair byte }
{
    [b'0' + byte / 16, b'0' + byte % 16]
}

/// `YYYY-MM-DD`, the digits of a date as they stand.
fn day_text(date: u32) -> [u8; 10]
    ensures { result ≡ day_text date }
{
    let [month, day, century, year] = date.to_be_bytes();
    let [c1, c2] = digit_pair(century);
    let [y1, y2] = digit_pair(year);
    let [m1, m2] = digit_pair(month);
    let [d1, d2] = digit_pair(day);
    [c1, c2, y1, y2, b'-', m1, m2, b'-', d1, d2]
}

/// Puts the day that an update's date names, or a dash where it names none.
fn put_date(line: &mut Line, date: u32)
    requires { 10 + length line.old ≤ 160 }
    ensures items { (text : List ℕ) → IsDateText date text → line.new ≡ text ++ line.old }
    ensures len { length line.new ≤ 10 + length line.old }
{
    match day_of(date) {
        Some(_) => line.put(&day_text(date)),
        None => line.put(b"-"),
    }
}

/// Puts ` min HEX`, or nothing where there is no minimum.
fn put_min(line: &mut Line, min: u32)
    requires { 15 + length line.old ≤ 160 }
    ensures items { line.new ≡ min_text min ++ line.old }
    ensures len { length line.new ≤ 15 + length line.old }
{
    if min != 0 {
        line.put_hex(min);
        line.put(b" min ");
    }
}

/// The line of an update: `N at START len LEN rev HEX date YYYY-MM-DD sig HEX flags HEX`, and ` min HEX` where there is
/// a minimum.
#[tactic(auto, unfolding(report_text::specs::Lines::update_line))]
fn compose_update(line: &mut Line, number: u32, facts: &EntryFacts)
    requires { line.old ≡ [] }
    ensures { (date : List ℕ) → IsDateText facts.now.date date → line.new ≡ update_line number facts.now date }
{
    line.put(b"\n");
    put_min(line, facts.min);
    line.put_hex(facts.flags);
    line.put(b" flags ");
    line.put_hex(facts.sig);
    line.put(b" sig ");
    put_date(line, facts.date);
    line.put(b" date ");
    line.put_hex(facts.rev);
    line.put(b" rev ");
    line.put_dec(facts.len);
    line.put(b" len ");
    line.put_dec(facts.start);
    line.put(b" at ");
    line.put_dec(u64::from(number));
}

/// The line of a patch: `N at START len LEN rev HEX id HEX family HEX`.
#[tactic(auto, unfolding(report_text::specs::Lines::patch_line))]
fn compose_patch(line: &mut Line, number: u32, facts: &EntryFacts)
    requires { line.old ≡ [] }
    ensures { line.new ≡ patch_line number facts.now }
{
    line.put(b"\n");
    line.put_hex(u32::from(facts.family));
    line.put(b" family ");
    line.put_hex(u32::from(facts.id));
    line.put(b" id ");
    line.put_hex(facts.rev);
    line.put(b" rev ");
    line.put_dec(facts.len);
    line.put(b" len ");
    line.put_dec(facts.start);
    line.put(b" at ");
    line.put_dec(u64::from(number));
}

/// The line of an entry, by its vendor.
fn compose_entry(line: &mut Line, number: u32, facts: &EntryFacts)
    requires { line.old ≡ [] }
    ensures { (date_text : ℕ → List ℕ) → AreDateTexts date_text
        → line.new ≡ entry_line date_text number facts.now }
{
    match facts.vendor {
        Vendor::Intel => compose_update(line, number, facts),
        Vendor::Amd => compose_patch(line, number, facts),
    }
}

/// Writes the line of an entry.
pub fn put_entry_line<S: Sink>(
    out: &mut S,
    number: u32,
    facts: &EntryFacts,
) -> Result<(), SinkFailed>
    ensures { (date_text : ℕ → List ℕ) → AreDateTexts date_text
        → Writes S.stands S.faults out.old out.new (entry_line date_text number facts.now) result }
{
    let mut line = Line::new();
    compose_entry(&mut line, number, facts);
    out.write(line.as_slice())
}

/// The line of a pair in an update's table: `  pair HEX HEX`, a signature and the processor flags that go with it.
#[tactic(auto, unfolding(report_text::specs::Lines::pair_line))]
pub fn put_pair<S: Sink>(out: &mut S, sig: u32, flags: u32) -> Result<(), SinkFailed>
    ensures { Writes S.stands S.faults out.old out.new (pair_line (sig, flags)) result }
{
    let mut line = Line::new();
    line.put(b"\n");
    line.put_hex(flags);
    line.put(b" ");
    line.put_hex(sig);
    line.put(b"  pair ");
    out.write(line.as_slice())
}

/// The line of a signature that a patch is for: `  sig HEX`.
#[tactic(auto, unfolding(report_text::specs::Lines::sig_line))]
pub fn put_sig<S: Sink>(out: &mut S, sig: u32) -> Result<(), SinkFailed>
    ensures { Writes S.stands S.faults out.old out.new (sig_line sig) result }
{
    let mut line = Line::new();
    line.put(b"\n");
    line.put_hex(sig);
    line.put(b"  sig ");
    out.write(line.as_slice())
}

/// ` safe` for an update whose own minimum the revision reaches.
fn safe_text(facts: &EntryFacts, rev: u32) -> &'static str
    ensures { result.now ≡ safe_text facts.now.vendor facts.now.min rev }
{
    match facts.vendor {
        Vendor::Intel if facts.min != 0 && facts.min <= rev => " safe",
        _ => "",
    }
}

/// The line of a core and the entry that it is offered: `core C rev HEX offer N rev HEX`, and ` safe` where a load
/// without a reboot is safe by what the update itself says.
#[tactic(auto, unfolding(report_text::specs::Lines::offer_line))]
pub fn put_offer<S: Sink>(
    out: &mut S,
    core: u16,
    rev: u32,
    number: u32,
    facts: &EntryFacts,
) -> Result<(), SinkFailed>
    ensures { Writes S.stands S.faults out.old out.new (offer_line core rev number facts.now) result }
{
    let core = dec(u64::from(core));
    let number = dec(u64::from(number));
    let old = hex8(rev);
    let new = hex8(facts.rev);
    let safe = safe_text(facts, rev);
    write_line(
        out,
        &[
            b"core ",
            core.as_slice(),
            b" rev ",
            &old,
            b" offer ",
            number.as_slice(),
            b" rev ",
            &new,
            safe.as_bytes(),
            b"\n",
        ],
    )
}

/// The line of a core that is offered nothing: `core C rev HEX offer none`.
#[tactic(auto, unfolding(report_text::specs::Lines::no_offer_line))]
pub fn put_no_offer<S: Sink>(out: &mut S, core: u16, rev: u32) -> Result<(), SinkFailed>
    ensures { Writes S.stands S.faults out.old out.new (no_offer_line core rev) result }
{
    let core = dec(u64::from(core));
    let rev = hex8(rev);
    write_line(
        out,
        &[b"core ", core.as_slice(), b" rev ", &rev, b" offer none\n"],
    )
}
