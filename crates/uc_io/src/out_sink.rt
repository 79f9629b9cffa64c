//! Standard output, or another writer.
ghost use Rattle.std.specs.Prelude.{◌≡◌, ℕ, List, [], OnOk};
ghost use Rattle.uc_io.specs.Gathering.{Gathers};

use crate::gathering::{BLOCK, gather, hand_on};
use crate::sinks::{Sink, SinkFailed};
use arrayvec::ArrayVec;
use std::io::Write;

/// Writes to a writer, such as standard output (`std::io::writer`). It gathers what it takes, hands 65,536 bytes on at
/// once, and what is left by `finish`, without which that is lost. A failure shows in the call that hands on; what could
/// not be written is still held, and the next call tries it again.
///
/// It stands for what the writer holds with what is held behind it, where the writer tells what it holds. Standard output
/// does not, since what another program gets to see of it is not known here, and the sink then stands for no list.
#[derive(Drop)]
pub struct OutSink<W> {
    to: W,
    held: ArrayVec<u8, BLOCK>,
    faults: u64,
}

impl<W> OutSink<W> {
    ghost use Rattle.uc_io.specs.Host.{failed_writes_of, held_by, writer_of};

    pub fn new(to: W) -> Self
        ensures writer { writer_of result ≡ to }
        ensures faults { failed_writes_of result ≡ 0 }
        ensures held { held_by result ≡ [] }
    {
        OutSink {
            to,
            held: ArrayVec::new(),
            faults: 0,
        }
    }
}

impl<W: Write> OutSink<W> {
    ghost use Rattle.uc_io.specs.Host.{failed_writes_of, held_by, StandsFor};
    ghost use Rattle.uc_io.specs.Writing.{Writes};

    /// Hands on what is held. It is to be called at the end, and wherever what was written is to be seen at once.
    pub fn finish(&mut self) -> Result<(), SinkFailed>
        ensures writes { Writes (StandsFor W.contents) failed_writes_of self.old self.new [] result }
        ensures held { OnOk result (held_by self.new ≡ []) }
    {
        let wrote = hand_on(&mut self.to, &mut self.held);
        if wrote.is_err() {
            self.faults = self.faults.saturating_add(1);
        }
        wrote
    }
}

impl<W: Write> Sink for OutSink<W> {
    ghost use Rattle.uc_io.specs.Host.{failed_writes_of, held_by, StandsFor};
    ghost use Rattle.uc_io.specs.Writing.{Writes};

    ghost stands = { StandsFor W.contents };

    ghost faults = { failed_writes_of };

    fn write(&mut self, piece: &[u8]) -> Result<(), SinkFailed>
        ensures writes { Writes (StandsFor W.contents) failed_writes_of self.old self.new piece.now result }
        ensures gathers { OnOk result ((done : List ℕ) × Gathers (held_by self.old) piece.now done (held_by self.new)) }
    {
        let wrote = gather(&mut self.to, &mut self.held, piece);
        if wrote.is_err() {
            self.faults = self.faults.saturating_add(1);
        }
        wrote
    }
}
