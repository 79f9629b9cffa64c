//! The list of files and their entries.
ghost use Rattle.std.specs.Prelude.{◌≡◌, ◌<◌, ◌≤◌, ◌+◌, ◌-◌, ℕ, List, length, map, take, drop, flat_map};
ghost use Rattle.uc_io.specs.Writing.{Writes};
ghost use Rattle.entry_model.specs.Entry.{served, entries_of};
ghost use Rattle.entry_model.specs.Reading.{Reading};
ghost use Rattle.report_text.specs.Lines.{pair_line, sig_line};
ghost use Rattle.report_text.specs.Listing.{AreDateTexts, entry_text, entries_text, file_text, files_text};
ghost use Rattle.uc_catalog.specs.Contents.{sum_of, kept, file_at, entry_at, IsOfReadings};

use crate::lines::{put_entry_line, put_file, put_pair, put_sig};
use uc_bytes::Text;
use uc_catalog::Catalog;
use uc_io::{Sink, SinkFailed};

/// Writes the lines on the pairs in the table of an update: its header's pair, the first, has none.
fn put_pairs<S: Sink>(out: &mut S, catalog: &Catalog, i: u32) -> Result<(), SinkFailed>
    requires { i < length catalog.now.entries }
    ensures { Writes S.stands S.faults out.old out.new
        (flat_map pair_line (drop 1 (entry_at catalog.now i).pairs)) result }
{
    'pairs: for k in 1..catalog.pairs(i) {
        let (sig, flags) = catalog.pair(i, k);
        put_pair(out, sig, flags)?;
    }
    Ok(())
}

/// Writes the lines on the signatures that a patch is for.
fn put_sigs<S: Sink>(out: &mut S, catalog: &Catalog, i: u32) -> Result<(), SinkFailed>
    requires { i < length catalog.now.entries }
    ensures { Writes S.stands S.faults out.old out.new (flat_map sig_line (served (entry_at catalog.now i))) result }
{
    let mut k = 0;
    'sigs: while let Some(sig) = catalog.served(i, k) {
        put_sig(out, sig)?;
        k += 1;
    }
    Ok(())
}

/// Writes the same of an entry with this id: nothing where that is 0, as it is of each update. So an update is not
/// looked up in vain.
fn put_sigs_by_id<S: Sink>(
    out: &mut S,
    catalog: &Catalog,
    i: u32,
    id: u16,
) -> Result<(), SinkFailed>
    requires entry { i < length catalog.now.entries }
    requires id { id ≡ (entry_at catalog.now i).facts.id }
    ensures { Writes S.stands S.faults out.old out.new (flat_map sig_line (served (entry_at catalog.now i))) result }
{
    if id == 0 {
        Ok(())
    } else {
        put_sigs(out, catalog, i)
    }
}

/// Writes the lines on an entry: its own, and those on its table's pairs or its signatures.
fn put_entry<S: Sink>(out: &mut S, catalog: &Catalog, i: u32) -> Result<(), SinkFailed>
    requires { i < length catalog.now.entries }
    ensures { (date_text : ℕ → List ℕ) → AreDateTexts date_text →
        Writes S.stands S.faults out.old out.new (entry_text date_text i (entry_at catalog.now i)) result }
{
    let facts = catalog.entry(i);
    put_entry_line(out, i, &facts)?;
    put_pairs(out, catalog, i)?;
    put_sigs_by_id(out, catalog, i, facts.id)
}

/// Writes the lines on the entries from one number up to another.
fn put_entries<S: Sink>(
    out: &mut S,
    catalog: &Catalog,
    first: u32,
    end: u32,
) -> Result<(), SinkFailed>
    requires order { first ≤ end }
    requires within { end ≤ length catalog.now.entries }
    ensures { (date_text : ℕ → List ℕ) → AreDateTexts date_text → Writes S.stands S.faults out.old out.new
        (entries_text date_text first (take (end - first) (drop first catalog.now.entries))) result }
{
    'entries: for i in first..end {
        put_entry(out, catalog, i)?;
    }
    Ok(())
}

/// Writes the lines on a file and its entries, which stand from one number up to another.
fn put_file_entries<S: Sink>(
    out: &mut S,
    catalog: &Catalog,
    file: u32,
    name: &Text,
    first: u32,
    end: u32,
) -> Result<(), SinkFailed>
    requires file { file < length catalog.now.files }
    requires order { first ≤ end }
    requires within { end ≤ length catalog.now.entries }
    ensures { (date_text : ℕ → List ℕ) (reading : Reading) → AreDateTexts date_text →
        file_at catalog.now file ≡ sum_of reading →
        take (end - first) (drop first catalog.now.entries) ≡ map (kept catalog.now.keeps) (entries_of file reading) →
        Writes S.stands S.faults out.old out.new (file_text date_text file first name.now reading) result }
{
    put_file(out, file, name, catalog.vendor_of(file), end - first)?;
    put_entries(out, catalog, first, end)
}

/// Writes the lines on the files of a catalogue, which have these names, and on their entries, all of which are
/// numbered from 0 on. It takes no memory.
pub fn put_list<S: Sink>(out: &mut S, catalog: &Catalog, names: &[Text]) -> Result<(), SinkFailed>
    requires { length names.now ≡ length catalog.now.files }
    ensures { (date_text : ℕ → List ℕ) (readings : List Reading) → AreDateTexts date_text →
        IsOfReadings catalog.now readings →
        Writes S.stands S.faults out.old out.new (files_text date_text 0 0 names.now readings) result }
{
    let mut first = 0;
    'files: for file in 0..catalog.files() {
        let end = first + catalog.entries_of(file);
        put_file_entries(out, catalog, file, &names[file as usize], first, end)?;
        first = end;
    }
    Ok(())
}
