//! Reads of any reader: one piece of it, or all.
ghost use Rattle.std.specs.Prelude.{◌≡◌, ◌<◌, ◌≤◌, take, length, IfOk, IfSome, MatchResult};
ghost use Rattle.std.specs.Io.KnownBytes.{Consumes, Keeps, IsAtEnd};
ghost use Rattle.uc_io.specs.Limits.{KeepsLimit};
ghost use Rattle.uc_io.specs.declared.reads.Unread.TheVariants.{Failed as FailedRead, NoMemory as NoMemoryToRead};

use std::alloc::{AllocError, Global};
use std::io;
use std::io::{ErrorKind, Read};

/// How many bytes one read asks for.
const PIECE: usize = 65_536;

/// Why a reader was not read to its end.
#[derive(Drop)]
pub(crate) enum Unread {
    Failed(io::Error),
    /// There are more bytes than the limit; so many were taken.
    TooLong(u64),
    NoMemory,
}

impl From<AllocError> for Unread {
    ghost from_gives = { λ _ answer. answer ≡ NoMemoryToRead };

    fn from(_error: AllocError) -> Unread {
        Unread::NoMemory
    }
}

impl From<io::Error> for Unread {
    ghost from_gives = { λ why answer. answer ≡ FailedRead why };

    fn from(why: io::Error) -> Unread {
        Unread::Failed(why)
    }
}

/// Reads to the end, or until more than `limit` bytes were taken, of which no more than `limit` are kept. It makes room
/// for the `expected` bytes at once, so that a file of that length is never moved.
pub(crate) fn read_whole<F: Read>(
    file: &mut F,
    alloc: Global,
    limit: u64,
    expected: usize,
) -> Result<Vec<u8>, Unread>
    ensures limit { KeepsLimit limit result }
    ensures whole { IfOk result (λ bytes. IfSome (F.remaining file.old) (λ held. bytes.items ≡ held)) }
{
    let mut bytes = Vec::with_capacity(alloc, expected)?;
    let mut piece = [0; PIECE];
    for _ in 0..u64::MAX {
        let taken = read_some(file, &mut piece)?;
        if taken == 0 {
            return Ok(bytes);
        }
        let length = (bytes.len() + taken) as u64;
        if length > limit {
            return Err(Unread::TooLong(length));
        }
        bytes.extend_from_slice(&piece[..taken])?;
    }
    Err(Unread::Failed(ErrorKind::Other.into()))
}

/// One read, which is tried again where a signal interrupts it.
pub fn read_some<F: Read>(file: &mut F, piece: &mut [u8]) -> io::Result<usize>
    ensures bound { IfOk result (λ taken. taken ≤ length piece.new) }
    ensures bytes { MatchResult result
        (λ taken. Consumes (F.remaining file.old) (F.remaining file.new) (take taken piece.new))
        (λ _. Keeps (F.remaining file.old) (F.remaining file.new)) }
    ensures end { IfOk result (λ taken. taken ≡ 0 → 0 < length piece.old → IsAtEnd (F.remaining file.new)) }
{
    for _ in 0..u64::MAX {
        match file.read(piece) {
            Ok(taken) => return Ok(taken),
            Err(error) if error.kind() == ErrorKind::Interrupted => {}
            Err(error) => return Err(error),
        }
    }
    Err(ErrorKind::Interrupted.into())
}
