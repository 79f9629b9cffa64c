ghost use Rattle.std.specs.Prelude.{◌≡◌, ◌++◌, IfSome};
ghost use Rattle.std.specs.List.{flat_map};
ghost use Rattle.uc_io.specs.Writing.{Writes};

use crate::sinks::{Sink, SinkFailed};
use arrayvec::ArrayVec;

/// Puts the pieces behind what the line has, one after another, where they fit it.
fn gather(line: &mut ArrayVec<u8, 256>, pieces: &[&[u8]]) -> Option<()>
    ensures { IfSome result (λ _. line.new.items ≡ line.old.items ++ flat_map (λ piece. piece.now) pieces.now) }
{
    for piece in pieces {
        line.try_extend_from_slice(piece).ok()?;
    }
    Some(())
}

/// Writes pieces one by one.
fn write_each<S: Sink>(out: &mut S, pieces: &[&[u8]]) -> Result<(), SinkFailed>
    ensures { Writes S.stands S.faults out.old out.new (flat_map (λ piece. piece.now) pieces.now) result }
{
    for piece in pieces {
        out.write(piece)?;
    }
    Ok(())
}

/// Writes a line that is given in pieces: in one write where it has at most 256 bytes, as all lines without a long
/// file name do, and else piece by piece.
pub fn write_line<S: Sink>(out: &mut S, pieces: &[&[u8]]) -> Result<(), SinkFailed>
    ensures { Writes S.stands S.faults out.old out.new (flat_map (λ piece. piece.now) pieces.now) result }
{
    let mut line = ArrayVec::new();
    match gather(&mut line, pieces) {
        Some(()) => out.write(line.as_slice()),
        None => write_each(out, pieces),
    }
}
