//! `list`: what update files hold.
ghost use Rattle.std.specs.Prelude.{◌≡◌, ◌≤◌, length};
ghost use Rattle.uc_io.specs.Faults.{Rose};
ghost use Rattle.status_rule.specs.Causes.{ReadCause, WriteCause};
ghost use Rattle.status_rule.specs.Written.{Written};
ghost use Rattle.tool_text.specs.Commands.{ListText};
ghost use Rattle.tool_text.specs.Tool.{FromReads, UsageCause};
ghost use Rattle.tool_text.specs.Words.{ListOf};

use crate::reading::read_updates;
use crate::refusal::refuse;
use status_rule::{Status, after_write};
use std::alloc::Global;
use uc_bytes::Text;
use uc_catalog::Catalog;
use uc_io::{Files, Sink};
use uc_report::put_list;

/// Reads the files of names, at most 16, and lists them with their entries, or says why there is nothing to list.
pub fn list<F: Files, S: Sink>(alloc: Global, names: &[Text], files: &mut F, out: &mut S) -> Status
    requires { length names.now ≤ 16 }
    ensures written { Written (FromReads (F.tells files.old) (F.holds files.old) (ListText names.now)) (Rose (F.faults files.old) (F.faults files.new)) S.stands out.old out.new result }
    ensures usage { UsageCause (ListOf names.now) result }
    ensures read_cause { ReadCause (F.faults files.old) (F.faults files.new) result }
    ensures write_cause { WriteCause (S.faults out.old) (S.faults out.new) result }
    ensures same { F.holds files.new ≡ F.holds files.old }
    ensures still { F.tells files.old → F.tells files.new }
    ensures later { F.faults files.old ≤ F.faults files.new }
{
    match read_updates(alloc, Catalog::of_facts(alloc), names, files) {
        Ok(catalog) => after_write(Status::Done, put_list(out, &catalog, names)),
        Err(refusal) => refuse(out, refusal),
    }
}
