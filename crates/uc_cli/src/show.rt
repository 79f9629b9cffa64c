//! `show`: one entry of an update file, with its bytes.
ghost use Rattle.std.specs.Prelude.{◌≡◌, ◌≤◌};
ghost use Rattle.uc_io.specs.Faults.{Rose};
ghost use Rattle.status_rule.specs.Causes.{ReadCause, WriteCause};
ghost use Rattle.status_rule.specs.Written.{Written};
ghost use Rattle.tool_text.specs.Commands.{ShowText};
ghost use Rattle.tool_text.specs.Tool.{FromReads, UsageCause};
ghost use Rattle.tool_text.specs.Words.{ShowOf};

use crate::reading::read_updates;
use crate::refusal::{Refusal, refuse};
use status_rule::{Status, after_write};
use std::alloc::Global;
use std::slice::from_ref;
use uc_bytes::Text;
use uc_catalog::Catalog;
use uc_io::{Files, Sink};
use uc_report::put_show;

/// Reads the file of a name and shows the entry of a number, or says why there is none to show.
pub fn show<F: Files, S: Sink>(
    alloc: Global,
    name: &Text,
    number: u64,
    files: &mut F,
    out: &mut S,
) -> Status
    ensures written { Written (FromReads (F.tells files.old) (F.holds files.old) (ShowText name.now number)) (Rose (F.faults files.old) (F.faults files.new)) S.stands out.old out.new result }
    ensures usage { UsageCause (ShowOf name.now number) result }
    ensures read_cause { ReadCause (F.faults files.old) (F.faults files.new) result }
    ensures write_cause { WriteCause (S.faults out.old) (S.faults out.new) result }
    ensures same { F.holds files.new ≡ F.holds files.old }
    ensures still { F.tells files.old → F.tells files.new }
    ensures later { F.faults files.old ≤ F.faults files.new }
{
    match read_updates(alloc, Catalog::new(alloc), from_ref(name), files) {
        Ok(catalog) => {
            if number < u64::from(catalog.len()) {
                after_write(Status::Done, put_show(out, &catalog, number as u32))
            } else {
                refuse(out, Refusal::NoEntry(number))
            }
        }
        Err(refusal) => refuse(out, refusal),
    }
}
