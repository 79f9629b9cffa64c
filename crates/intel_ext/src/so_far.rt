//! An extended signature table of which the entries come one after another. Intel SDM volume 3A, "Microcode Update
//! Facilities".
ghost use Rattle.std.specs.Prelude.{◌≡◌, ◌<◌, ◌+◌, ◌*◌, ◌%◌, ◌^◌, ℕ, List, [], ◌∷◌, ◌++◌, length, MatchOption};
ghost use Rattle.uc_bytes.specs.Words.{word_sum_of};
ghost use Rattle.intel_format.specs.Update.{IsExtTable};
ghost use Rattle.intel_format.specs.Checks.{IsFirstTableFault};
ghost use Rattle.intel_ext.specs.SoFar.{IsTableSoFar, IsFirstBad};

use uc_bytes::{FileCause, word_at, word_sum};

/// What is known of a table of which the head came, and some entries.
#[derive(Clone, Copy, Debug)]
pub struct TableSoFar {
    /// How many entries the head counts.
    pub count: u32,
    /// How many of them came.
    pub came: u32,
    /// What the words that came sum to.
    pub sum: u32,
    /// The first entry that does not sum to what the header's signature, flags and checksum do.
    pub bad: Option<u32>,
}

/// A table of which the head came.
pub fn begin_table(head: &[u8]) -> TableSoFar
    requires { length head.now ≡ 20 }
    ensures { (triple : ℕ) → IsTableSoFar triple head.now result [] }
{
    TableSoFar {
        count: word_at(head, 0),
        came: 0,
        sum: word_sum(head),
        bad: None,
    }
}

/// The first entry with another sum than `triple`, behind `came` entries of which `bad` is the first, where one of this
/// sum comes.
fn bad_after(bad: Option<u32>, came: u32, sum: u32, triple: u32) -> Option<u32>
    ensures { (table entry : List ℕ) → length table ≡ 20 + 12 * came → length entry ≡ 12 → sum ≡ word_sum_of entry
        → IsFirstBad triple table came bad → IsFirstBad triple (table ++ entry) (came + 1) result }
{
    match bad {
        Some(first) => Some(first),
        None => { if sum == triple { None } else { Some(came) } }
    }
}

impl TableSoFar {
    /// Takes the next entry, and tells its signature and flags. Each entry is to sum to `triple`, the sum of the
    /// header's signature, flags and checksum modulo 2^32.
    pub fn come(&mut self, entry: &[u8], triple: u32) -> (u32, u32)
        requires { length entry.now ≡ 12 }
        ensures so_far { (table : List ℕ) (pairs : List (ℕ × ℕ)) → IsTableSoFar triple table self.old pairs
            → self.old.came < self.old.count
            → IsTableSoFar triple (table ++ entry.now) self.new (pairs ++ result ∷ []) }
        ensures count { self.new.count ≡ self.old.count }
        ensures came { self.new.came ≡ (self.old.came + 1) % 2 ^ 32 }
    {
        let sum = word_sum(entry);
        self.bad = bad_after(self.bad, self.came, sum, triple);
        self.came = self.came.wrapping_add(1);
        self.sum = self.sum.wrapping_add(sum);
        (word_at(entry, 0), word_at(entry, 4))
    }

    /// The first check that fails of a table of which all entries came.
    pub fn fault(&self) -> Option<FileCause>
        ensures { (triple : ℕ) (table : List ℕ) (pairs : List (ℕ × ℕ)) → IsTableSoFar triple table self.now pairs
            → self.now.came ≡ self.now.count
            → MatchOption result (IsExtTable triple table pairs) (IsFirstTableFault triple table) }
    {
        if self.sum != 0 {
            return Some(FileCause::ExtSum);
        }
        match self.bad {
            Some(entry) => Some(FileCause::EntrySum(entry)),
            None => None,
        }
    }
}
