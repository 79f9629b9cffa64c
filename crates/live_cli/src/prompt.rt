//! Standard output that hands on what each command wrote.
ghost use Rattle.std.specs.Prelude.{◌≡◌, true, [], OnOk};
ghost use Rattle.live_cli.specs.Prompt.{failures_of, kept_by, PromptStands, ends_a_command};
ghost use Rattle.uc_io.specs.Host.{failed_writes_of, held_by, StandsFor};
ghost use Rattle.uc_io.specs.Writing.{Writes};

use std::io::Write;
use uc_io::{OutSink, Sink, SinkFailed};

/// A writer, such as standard output, that gathers the text of a command, and hands it on with the line of its answer,
/// so that it is seen while the next command still runs. What is written otherwise is handed on as `OutSink` does, and
/// at the end by `finish`.
#[derive(Drop)]
pub struct PromptOut<W> {
    out: OutSink<W>,
}

impl<W> PromptOut<W> {
    pub fn new(to: W) -> Self {
        PromptOut {
            out: OutSink::new(to),
        }
    }
}

impl<W: Write> PromptOut<W> {
    /// Hands on what is held.
    pub fn finish(&mut self) -> Result<(), SinkFailed>
        ensures writes { Writes (PromptStands W.contents) failures_of self.old self.new [] result }
        ensures kept { OnOk result (kept_by self.new ≡ []) }
    {
        self.out.finish()
    }
}

impl<W: Write> Sink for PromptOut<W> {
    ghost stands = { PromptStands W.contents };

    ghost faults = { failures_of };

    fn write(&mut self, piece: &[u8]) -> Result<(), SinkFailed>
        ensures writes { Writes (PromptStands W.contents) failures_of self.old self.new piece.now result }
        ensures handed_on { OnOk result (ends_a_command piece.now ≡ true → kept_by self.new ≡ []) }
    {
        if piece.starts_with(b"answer ") {
            through(&mut self.out, piece)
        } else {
            self.out.write(piece)
        }
    }
}

/// Takes a piece, and hands on all that is held.
fn through<W: Write>(out: &mut OutSink<W>, piece: &[u8]) -> Result<(), SinkFailed>
    ensures writes { Writes (StandsFor W.contents) failed_writes_of out.old out.new piece.now result }
    ensures handed_on { OnOk result (held_by out.new ≡ []) }
{
    match out.write(piece) {
        Ok(()) => out.finish(),
        Err(fault) => Err(fault),
    }
}
