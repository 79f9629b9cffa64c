//! Bytes that are gathered in blocks before they are written.
ghost use Rattle.std.specs.Prelude.{◌≡◌, ◌≤◌, ◌↔◌, ◌++◌, ℕ, List, [], take, drop, length, IsOk, OnOk, OnErr};
ghost use Rattle.std.specs.Io.KnownBytes.{Appends};
ghost use Rattle.arrayvec.specs.ArrayVec.{array_vec_len};
ghost use Rattle.uc_io.specs.Gathering.{Gathers, GathersFront};

use crate::sinks::SinkFailed;
use arrayvec::ArrayVec;
use std::io::{ErrorKind, Write};

/// How many bytes are written at once.
pub const BLOCK: usize = 65_536;

/// Holds a piece behind what is held, and hands on what is held each time that it is a block. After a failure a front of
/// the piece was taken; what of it and of the bytes before it was not written is still held.
pub fn gather<W: Write>(
    to: &mut W,
    held: &mut ArrayVec<u8, BLOCK>,
    piece: &[u8],
) -> Result<(), SinkFailed>
    ensures ok { OnOk result ((done : List ℕ) × Gathers held.old.items piece.now done held.new.items × Appends (W.contents to.old) (W.contents to.new) done) }
    ensures err { OnErr result (GathersFront held.old.items piece.now held.new.items (W.contents to.old) (W.contents to.new)) }
{
    let mut rest = piece;
    while rest.len() >= BLOCK - held.len() {
        let (front, behind) = rest.split_at(BLOCK - held.len());
        held.try_extend_from_slice(front).unwrap();
        hand_on(to, held)?;
        rest = behind;
    }
    held.try_extend_from_slice(rest).unwrap();
    Ok(())
}

/// Writes what is held. After a failure what was not written is still held.
pub fn hand_on<W: Write>(to: &mut W, held: &mut ArrayVec<u8, BLOCK>) -> Result<(), SinkFailed>
    ensures moved { (done : List ℕ) × (held.old.items ≡ done ++ held.new.items) × Appends (W.contents to.old) (W.contents to.new) done }
    ensures all { IsOk result ↔ (held.new.items ≡ []) }
{
    let written = write_all(to, held.as_slice());
    if written == held.len() {
        held.clear();
        return Ok(());
    }
    keep_behind(held, written);
    Err(SinkFailed)
}

/// Drops so many bytes from the front of what is held. It stays a call of its own, since its room is cleared: only a write
/// that failed comes here.
#[inline(never)]
fn keep_behind(held: &mut ArrayVec<u8, BLOCK>, written: usize)
    requires { written ≤ array_vec_len held.old }
    ensures { held.new.items ≡ drop written held.old.items }
{
    let mut rest = ArrayVec::new();
    rest.try_extend_from_slice(&held.as_slice()[written..])
        .unwrap();
    *held = rest;
}

/// Writes a piece, and says how many bytes of it got out: all, or those before a write failed or took nothing.
fn write_all<W: Write>(to: &mut W, piece: &[u8]) -> usize
    ensures within { result ≤ length piece.now }
    ensures bytes { Appends (W.contents to.old) (W.contents to.new) (take result piece.now) }
{
    let mut written = 0;
    while written < piece.len() {
        let taken = write_some(to, &piece[written..]);
        if taken == 0 {
            return written;
        }
        written += taken;
    }
    written
}

/// How many bytes one write took, which is tried again where a signal interrupts it; none where it failed.
fn write_some<W: Write>(to: &mut W, piece: &[u8]) -> usize
    ensures within { result ≤ length piece.now }
    ensures bytes { Appends (W.contents to.old) (W.contents to.new) (take result piece.now) }
{
    for _ in 0..u64::MAX {
        match to.write(piece) {
            Ok(taken) => return taken,
            Err(error) if error.kind() == ErrorKind::Interrupted => {}
            Err(_) => return 0,
        }
    }
    0
}
