ghost use Rattle.std.specs.Prelude.{◌≤◌, ◌<◌, ℕ, List, length};
ghost use Rattle.uc_io.specs.Pieces.{IsPieceOf};

/// The next bytes were not taken. The count of faults has risen.
#[derive(Clone, Copy, Debug, PartialEq, Eq)]
pub struct PieceFailed;

/// Bytes that are taken piece by piece.
pub trait Pieces {
    /// Whether `left` says what is left. It does in memory, and not for a real file.
    ghost tells: { Self → Type 0 };

    /// The bytes that are left, where they are told.
    ghost left: { Self → List ℕ };

    /// How many calls failed. It never falls, and stays at the greatest `u64`.
    ghost faults: { Self → ℕ };

    /// Whether all that the pieces may come from is the same.
    ghost same_source: { Self → Self → Type 0 };

    /// Takes bytes from the front of what is left, and says how many; none only where nothing is left.
    fn next(&mut self, into: &mut [u8]) -> Result<usize, PieceFailed>
        requires { 0 < length into.old }
        ensures piece { IsPieceOf (tells self.old) (left self.old) (left self.new)
            (faults self.old) (faults self.new) into.new result }
        ensures source { same_source self.old self.new }
        ensures still { tells self.old → tells self.new }
        ensures later { faults self.old ≤ faults self.new };
}
