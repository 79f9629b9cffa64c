//! Searches in sorted rows.
ghost use Rattle.std.specs.Prelude.{◌≡◌, slice_get};
ghost use Rattle.std.specs.List.Sorted.{IsNonDecreasingBy};
ghost use Rattle.equiv_index.specs.Rows.{first_with, sigs_with};

use crate::row::Row;

/// The first row with a signature, in rows that are sorted by signature.
pub fn first_with(rows: &[Row], sig: u32) -> Option<Row>
    requires { IsNonDecreasingBy (λ row. row.sig) rows.now }
    ensures { result ≡ first_with rows.now sig }
{
    let at = rows.partition_point(|row| row.sig < sig);
    if at < rows.len() && rows[at].sig == sig {
        Some(rows[at])
    } else {
        None
    }
}

/// The signature of the k-th row with an id, in rows that are sorted by id.
pub fn nth_with(rows: &[Row], id: u16, k: u32) -> Option<u32>
    requires { IsNonDecreasingBy (λ row. row.id) rows.now }
    ensures { result ≡ slice_get (sigs_with rows.now id) k }
{
    let at = rows.partition_point(|row| row.id < id) + k as usize;
    if at < rows.len() && rows[at].id == id {
        Some(rows[at].sig)
    } else {
        None
    }
}
