ghost use Rattle.std.specs.Prelude.{◌≡◌, ◌≢◌, ℕ, ◌+◌, ◌*◌, ◌%◌, ◌^◌, ◌<◌, length, slice_index_or, MatchOption};
ghost use Rattle.intel_format.specs.Update.{entry_count, entry_sum, pair_at};
ghost use Rattle.intel_ext.specs.Reading.{IsTableRead};

use crate::fault::ExtFault;
use std::marker::Model;
use uc_bytes::{word_at, word_sum};

/// A sound table. A contract sees the list of its signatures and flags.
#[derive(Debug, Drop)]
pub struct ExtTable<'a> {
    table: &'a [u8],
}

impl<'a> Model for ExtTable<'a> {
    ghost use Rattle.std.specs.Prelude.{◌≡◌, ℕ, ◌+◌, ◌*◌, List, length, map};
    ghost use Rattle.std.specs.List.{range_with_len};
    ghost use Rattle.intel_format.specs.Update.{entry_count, pair_at};

    ghost Value = { List (ℕ × ℕ) };

    ghost view = { λ t. map (pair_at t.table.now) (range_with_len 0 (entry_count t.table.now)) };

    ghost invariant = { λ t. length t.table.now ≡ 20 + 12 * entry_count t.table.now };
}

impl<'a> ExtTable<'a> {
    /// How many pairs there are.
    pub fn count(&self) -> u32
        ensures { result ≡ length self.now }
    {
        word_at(self.table, 0)
    }

    /// A signature and the processor flags that go with it.
    pub fn pair(&self, i: u32) -> (u32, u32)
        requires { i < length self.now }
        ensures { result ≡ slice_index_or self.now i (0, 0) }
    {
        let at = 20 + 12 * i as usize;
        (word_at(self.table, at), word_at(self.table, at + 4))
    }
}

/// What an entry's three words sum to.
fn entry_sum(table: &[u8], entry: u32) -> u32
    requires whole { length table.now ≡ 20 + 12 * entry_count table.now }
    requires entry { entry < entry_count table.now }
    ensures { result ≡ entry_sum table.now entry }
{
    let at = 20 + 12 * entry as usize;
    word_at(table, at)
        .wrapping_add(word_at(table, at + 4))
        .wrapping_add(word_at(table, at + 8))
}

/// The first entry that does not sum to `triple`.
fn first_bad_entry(table: &[u8], triple: u32) -> Option<u32>
    requires { length table.now ≡ 20 + 12 * entry_count table.now }
    ensures { MatchOption result
        ((i : ℕ) → i < entry_count table.now → entry_sum table.now i ≡ triple)
        (λ bad. (bad < entry_count table.now) × (entry_sum table.now bad ≢ triple) × ((j : ℕ) → j < bad → entry_sum table.now j ≡ triple)) }
{
    for entry in 0..word_at(table, 0) {
        if entry_sum(table, entry) != triple {
            return Some(entry);
        }
    }
    None
}

/// The table in the bytes, whose entries each sum to `triple`, the sum of the header's signature, flags and checksum
/// modulo 2^32; or the first check that fails.
pub fn read_table(table: &[u8], triple: u32) -> Result<ExtTable<'_>, ExtFault>
    requires { length table.now % 4 ≡ 0 }
    ensures { IsTableRead triple table.now result }
{
    if table.len() < 20 {
        return Err(ExtFault::Cut);
    }
    if table.len() as u64 != 20 + 12 * u64::from(word_at(table, 0)) {
        return Err(ExtFault::CountMismatch);
    }
    if word_sum(table) != 0 {
        return Err(ExtFault::TableSum);
    }
    match first_bad_entry(table, triple) {
        Some(entry) => Err(ExtFault::EntrySum(entry)),
        None => Ok(ExtTable { table }),
    }
}
