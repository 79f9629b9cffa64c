//! An entry with its bytes.
ghost use Rattle.std.specs.Prelude.{◌<◌, ◌≤◌, IsTrue, ℕ, List, length, flat_map};
ghost use Rattle.uc_io.specs.Writing.{Writes};
ghost use Rattle.report_text.specs.Listing.{AreDateTexts};
ghost use Rattle.report_text.specs.Show.{rows_of_32, hex_line, show_text};
ghost use Rattle.uc_catalog.specs.Contents.{entry_at};

use crate::lines::put_entry_line;
use uc_catalog::Catalog;
use uc_io::{Sink, SinkFailed, write_line};

/// How many bytes stand on a line.
const ROW: usize = 32;

/// Writes at most 32 bytes as a line of hexadecimal digits.
fn put_row<S: Sink>(out: &mut S, row: &[u8]) -> Result<(), SinkFailed>
    requires { length row.now ≤ 32 }
    ensures { Writes S.stands S.faults out.old out.new (hex_line row.now) result }
{
    let mut buffer = [0; 64];
    let digits = &mut buffer[..2 * row.len()];
    hex::encode_to_slice(row, digits).unwrap();
    write_line(out, &[digits, b"\n"])
}

/// Writes bytes as lines of hexadecimal digits, 32 bytes a line, the last line being what is left.
fn put_bytes<S: Sink>(out: &mut S, bytes: &[u8]) -> Result<(), SinkFailed>
    ensures { Writes S.stands S.faults out.old out.new (flat_map hex_line (rows_of_32 bytes.now)) result }
{
    'rows: for row in 0..bytes.len().div_ceil(ROW) {
        let rest = &bytes[ROW * row..];
        put_row(out, &rest[..rest.len().min(ROW)])?;
    }
    Ok(())
}

/// Writes the line of an entry and then its bytes, which the catalogue keeps. It takes no memory.
pub fn put_show<S: Sink>(out: &mut S, catalog: &Catalog, i: u32) -> Result<(), SinkFailed>
    requires entry { i < length catalog.now.entries }
    requires keeps { IsTrue catalog.now.keeps }
    ensures { (date_text : ℕ → List ℕ) → AreDateTexts date_text →
        Writes S.stands S.faults out.old out.new (show_text date_text i (entry_at catalog.now i)) result }
{
    put_entry_line(out, i, &catalog.entry(i))?;
    put_bytes(out, catalog.bytes_of(i))
}
