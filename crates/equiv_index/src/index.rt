ghost use Rattle.std.specs.Prelude.{◌≡◌, ◌≢◌, ℕ, ◌^◌, ◌<◌, ◌↔◌, IsTrue, AllPairs, length, filter, count_by, IfOk, slice_get};
ghost use Rattle.std.specs.List.Sorted.{IsNonDecreasingBy};
ghost use Rattle.amd_format.specs.Equiv.{id_of};
ghost use Rattle.equiv_index.specs.Rows.{numbered, rows_in, is_first, served_by};
ghost use Rattle.equiv_index.specs.Index.{IsBySig, IsById, BeginsRun};

use crate::row::Row;
use crate::search::{first_with, nth_with};
use std::alloc::{AllocError, Global};
use std::marker::Model;
use uc_bytes::NoMemory;

/// An index of a table's rows. A contract sees the rows, signatures and ids, in the order of the table.
#[derive(Debug, Drop)]
pub struct RowIndex {
    /// All rows, sorted by signature; those of one signature are in the order of the table.
    by_sig: Vec<Row>,
    /// The first row of each signature once more, sorted by id; those of one id are in the order of the table.
    by_id: Vec<Row>,
}

impl Model for RowIndex {
    ghost use Rattle.std.specs.Prelude.{ℕ, List};
    ghost use Rattle.equiv_index.specs.Rows.{rows_in};
    ghost use Rattle.equiv_index.specs.Indexed.{IsIndexOf};

    ghost Value = { List (ℕ × ℕ) };

    ghost view = { λ index. rows_in index.by_sig.items };

    ghost invariant = { λ index. IsIndexOf (rows_in index.by_sig.items) index.by_sig.items index.by_id.items };
}

impl RowIndex {
    /// The index of the rows of a table, signatures and ids: a sort by signature, and one of the first rows by id.
    pub fn new(alloc: Global, rows: &[(u32, u16)]) -> Result<RowIndex, NoMemory>
        requires { length rows.now < 2 ^ 32 }
        ensures { IfOk result (λ index. index ≡ rows.now) }
    {
        let by_sig = rows_by_sig(alloc, rows)?;
        let by_id = rows_by_id(alloc, by_sig.as_slice())?;
        Ok(RowIndex { by_sig, by_id })
    }

    /// The id in the first row with a processor's signature, or 0, which means none, where no row has it.
    pub fn id_of(&self, sig: u32) -> u16
        ensures { result ≡ id_of self.now sig }
    {
        match first_with(self.by_sig.as_slice(), sig) {
            Some(row) => row.id,
            None => 0,
        }
    }

    /// The k-th signature, in the order of the table, whose first row has the id.
    pub fn served(&self, id: u16, k: u32) -> Option<u32>
        ensures value { result ≡ slice_get (served_by self.now id) k }
        ensures few { length (served_by self.now id) < 2 ^ 32 }
    {
        nth_with(self.by_id.as_slice(), id, k)
    }
}

/// The rows of a table with their numbers.
fn numbered_rows(alloc: Global, rows: &[(u32, u16)]) -> Result<Vec<Row>, AllocError>
    requires { length rows.now < 2 ^ 32 }
    ensures { IfOk result (λ numbered_rows. numbered_rows.items ≡ numbered 0 rows.now) }
{
    let mut numbered = Vec::new(alloc);
    numbered.reserve(rows.len())?;
    'rows: for number in 0..rows.len() {
        let (sig, id) = rows[number];
        numbered.push(Row {
            sig,
            number: number as u32,
            id,
        })?;
    }
    Ok(numbered)
}

/// The rows of a table sorted by signature. No two rows have one number, so the sort need not be stable.
fn rows_by_sig(alloc: Global, rows: &[(u32, u16)]) -> Result<Vec<Row>, AllocError>
    requires { length rows.now < 2 ^ 32 }
    ensures { IfOk result (λ sorted. IsBySig rows.now sorted.items) }
{
    let mut sorted = numbered_rows(alloc, rows)?;
    sorted.sort_unstable_by_key(|row| (row.sig, row.number));
    Ok(sorted)
}

/// Whether no row of the same signature stands directly before this one.
fn begins_run(by_sig: &[Row], at: usize) -> bool
    requires { at < length by_sig.now }
    ensures { IsTrue result ↔ BeginsRun by_sig.now at }
{
    at == 0 || by_sig[at - 1].sig != by_sig[at].sig
}

/// How many rows are the first of their signatures.
fn count_first(by_sig: &[Row]) -> usize
    requires few { length by_sig.now < 2 ^ 32 }
    requires sorted { IsNonDecreasingBy (λ row. row.sig) by_sig.now }
    requires apart { AllPairs (λ row other. row.number ≢ other.number) by_sig.now }
    ensures { result ≡ count_by (is_first by_sig.now) by_sig.now }
{
    let mut count = 0;
    'rows: for at in 0..by_sig.len() {
        if begins_run(by_sig, at) {
            count += 1;
        }
    }
    count
}

/// The rows that are the first of their signatures. Room is taken once, for just these.
fn first_rows(alloc: Global, by_sig: &[Row]) -> Result<Vec<Row>, AllocError>
    requires few { length by_sig.now < 2 ^ 32 }
    requires sorted { IsNonDecreasingBy (λ row. row.sig) by_sig.now }
    requires apart { AllPairs (λ row other. row.number ≢ other.number) by_sig.now }
    ensures { IfOk result (λ firsts. firsts.items ≡ filter (is_first by_sig.now) by_sig.now) }
{
    let mut firsts = Vec::new(alloc);
    firsts.reserve_exact(count_first(by_sig))?;
    'rows: for at in 0..by_sig.len() {
        if begins_run(by_sig, at) {
            firsts.push(by_sig[at])?;
        }
    }
    Ok(firsts)
}

/// These sorted by id, and those of one id by their numbers.
fn rows_by_id(alloc: Global, by_sig: &[Row]) -> Result<Vec<Row>, AllocError>
    requires few { length by_sig.now < 2 ^ 32 }
    requires order { IsBySig (rows_in by_sig.now) by_sig.now }
    ensures { IfOk result (λ sorted. IsById (rows_in by_sig.now) sorted.items) }
{
    let mut firsts = first_rows(alloc, by_sig)?;
    firsts.sort_unstable_by_key(|row| (row.id, row.number));
    Ok(firsts)
}
