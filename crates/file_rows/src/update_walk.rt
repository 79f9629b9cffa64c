//! What comes with a piece of an Intel file, as rows.
ghost use Rattle.std.specs.Prelude.{◌≡◌, ◌+◌, ◌<◌, ◌≤◌, ◌++◌, ℕ, List, OnOk, IfOk, IfErr, length, take, option_to_list, vec_len};
ghost use Rattle.uc_bytes.specs.declared.TheConstants.{FILE_LIMIT};
ghost use Rattle.uc_bytes.specs.declared.causes.FileAnswer.TheVariants.{NoMemory as NoMemoryAnswer};
ghost use Rattle.intel_format.specs.File.{FileUpdate};
ghost use Rattle.intel_file.specs.declared.walk.IntelWalk.{IntelWalk as Walk};
ghost use Rattle.intel_file.specs.Walk.{IsTaken, header_in};
ghost use Rattle.file_rows.specs.UpdateWalk.{rows_with, fault_in, HasRows, Lists, IsWalked};

use crate::updates::{UpdateRow, UpdateRows};
use intel_file::{IntelWalk, Took, What};
use intel_format::IntelHeader;
use uc_bytes::{FileAnswer, FileFault};

/// Adds the pair that came, if one did. What stood before stays, also where memory runs out.
fn add_pair(pairs: &mut Vec<(u32, u32)>, pair: Option<(u32, u32)>) -> Result<(), FileAnswer>
    ensures ok { OnOk result (pairs.new.items ≡ pairs.old.items ++ option_to_list pair) }
    ensures few { length pairs.new.items ≤ length pairs.old.items + 1 }
    ensures before { take (vec_len pairs.old) pairs.new.items ≡ pairs.old.items }
    ensures full { IfErr result (λ answer. answer ≡ NoMemoryAnswer) }
{
    if let Some(pair) = pair {
        pairs.push(pair)?;
    }
    Ok(())
}

/// Adds the update that came whole, if one did, whose pairs are the last of so many; or tells the fault that came. What
/// stood before stays, also where memory runs out.
fn add_update(
    rows: &mut Vec<UpdateRow>,
    header: &IntelHeader,
    what: What,
    pairs: u32,
) -> Result<Option<FileFault>, FileAnswer>
    ensures ok { OnOk result (rows.new.items ≡ rows.old.items ++ rows_with header.now pairs what) }
    ensures fault { IfOk result (λ fault. fault ≡ fault_in what) }
    ensures before { take (vec_len rows.old) rows.new.items ≡ rows.old.items }
    ensures full { IfErr result (λ answer. answer ≡ NoMemoryAnswer) }
{
    match what {
        What::More => Ok(None),
        What::Fault(fault) => Ok(Some(fault)),
        What::Update(ended) => {
            let pairs_at = pairs.saturating_sub(ended.pairs);
            rows.push(UpdateRow::new(header, ended, pairs_at))?;
            Ok(None)
        }
    }
}

/// Adds what came, or tells the fault that came. What stood before stays, also where memory runs out.
fn add(
    rows: &mut UpdateRows,
    header: &IntelHeader,
    took: &Took,
) -> Result<Option<FileFault>, FileAnswer>
    requires { length rows.old.pairs.items < FILE_LIMIT }
    ensures added { (walk : Walk) (bytes : List ℕ) (us : List FileUpdate) (pairs : List (ℕ × ℕ))
        → header_in walk ≡ header.now → HasRows us pairs rows.old
        → IsTaken bytes us (pairs ++ option_to_list took.now.pair) walk took.now.what
        → IsWalked bytes walk rows.new result }
    ensures few { length rows.new.pairs.items ≤ length rows.old.pairs.items + 1 }
    ensures rows { take (vec_len rows.old.rows) rows.new.rows.items ≡ rows.old.rows.items }
    ensures pairs { take (vec_len rows.old.pairs) rows.new.pairs.items ≡ rows.old.pairs.items }
    ensures full { IfErr result (λ answer. answer ≡ NoMemoryAnswer) }
{
    match add_pair(&mut rows.pairs, took.pair) {
        Ok(()) => {}
        Err(answer) => return Err(answer),
    }
    add_update(&mut rows.rows, header, took.what, rows.pairs.len() as u32)
}

/// Adds what comes with a piece, or tells the fault that it brings. Where memory runs out, some rows were added.
pub fn walk_piece(
    walk: &mut IntelWalk,
    rows: &mut UpdateRows,
    piece: &[u8],
) -> Result<Option<FileFault>, FileAnswer>
    requires { length rows.old.pairs.items + length piece.now ≤ FILE_LIMIT }
    ensures few { length rows.new.pairs.items ≤ length rows.old.pairs.items + length piece.now }
    ensures rows { take (vec_len rows.old.rows) rows.new.rows.items ≡ rows.old.rows.items }
    ensures pairs { take (vec_len rows.old.pairs) rows.new.pairs.items ≡ rows.old.pairs.items }
    ensures walked { (bytes : List ℕ) → Lists walk.old rows.old bytes → length bytes + length piece.now ≤ FILE_LIMIT
        → IsWalked (bytes ++ piece.now) walk.new rows.new result }
    ensures full { IfErr result (λ answer. answer ≡ NoMemoryAnswer) }
{
    let mut at = 0;
    'walk: while at < piece.len() {
        let took = walk.take(&piece[at..]);
        at += took.len;
        match add(rows, walk.header(), &took) {
            Ok(None) => {}
            Ok(Some(fault)) => return Ok(Some(fault)),
            Err(answer) => return Err(answer),
        }
    }
    Ok(None)
}
