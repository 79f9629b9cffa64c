ghost use Rattle.std.specs.Prelude.{ℕ, List};
ghost use Rattle.uc_io.specs.Writing.{Writes};

/// What was printed did not all get out. The sink's count of faults has risen.
#[derive(Clone, Copy, Debug, PartialEq, Eq)]
pub struct SinkFailed;

/// Takes what is printed.
pub trait Sink {
    /// Whether the sink stands for having taken this list of bytes. A sink that tells nothing stands for none.
    ghost stands: { Self → List ℕ → Type 0 };

    /// How many writes failed. It never falls, and stays at the greatest `u64`.
    ghost faults: { Self → ℕ };

    /// Takes a piece. After a failure the sink has taken a front of it.
    fn write(&mut self, piece: &[u8]) -> Result<(), SinkFailed>
        ensures { Writes stands faults self.old self.new piece.now result };
}
