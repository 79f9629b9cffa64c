//! A sink that counts lines.
ghost use Rattle.std.specs.Prelude.{◌≡◌, ◌+◌, ◌++◌, [], ◌∷◌, ℕ, List, false, All, Ok};
ghost use Rattle.std.specs.List.{position};
ghost use Rattle.uc_text.specs.Lines.{is_line_feed};
ghost use Rattle.uc_gen.specs.Tally.{Tallies, lines_of, last_of};

use arrayvec::ArrayVec;
use memchr::memchr;
use uc_io::{Sink, SinkFailed};

/// How much of a line is kept, in bytes.
const KEPT: usize = 128;

/// A sink that never fails, and keeps of what it takes how many lines there were, the last whole line, and what follows
/// it. Of the last two it keeps the first 128 bytes.
#[derive(Debug, Drop)]
pub struct TallySink {
    lines: u64,
    last: ArrayVec<u8, 128>,
    rest: ArrayVec<u8, 128>,
}

/// Where the first LF stands.
fn first_line_feed(bytes: &[u8]) -> Option<usize>
    ensures { result ≡ position is_line_feed bytes.now }
{
    memchr(b'\n', bytes)
}

/// Moves a line to the place of another, by its bytes alone, and leaves none.
fn take_over(last: &mut ArrayVec<u8, 128>, line: &mut ArrayVec<u8, 128>)
    ensures last { last.new.items ≡ line.old.items }
    ensures none { line.new.items ≡ [] }
{
    last.clear();
    last.try_extend_from_slice(line.as_slice()).unwrap();
    line.clear();
}

impl TallySink {
    /// Nothing is taken yet.
    pub fn new() -> TallySink
        ensures { Tallies result [] }
    {
        TallySink {
            lines: 0,
            last: ArrayVec::new(),
            rest: ArrayVec::new(),
        }
    }

    /// How many lines were taken, or the greatest number where there were more.
    pub fn lines(&self) -> u64
        ensures { result ≡ lines_of self.now }
    {
        self.lines
    }

    /// The first 128 bytes of the last whole line, without its LF; none where there was no line.
    pub fn last(&self) -> &[u8]
        ensures { result.now ≡ last_of self.now }
    {
        self.last.as_slice()
    }

    /// Takes bytes without LF.
    fn take_part(&mut self, part: &[u8])
        requires { All (λ byte. is_line_feed byte ≡ false) part.now }
        ensures { (text : List ℕ) → Tallies self.old text → Tallies self.new (text ++ part.now) }
    {
        let kept = part.len().min(KEPT - self.rest.len());
        self.rest.try_extend_from_slice(&part[..kept]).unwrap();
    }

    /// Takes an LF.
    fn end_line(&mut self)
        ensures { (text : List ℕ) → Tallies self.old text → Tallies self.new (text ++ 10 ∷ []) }
    {
        self.lines = self.lines.saturating_add(1);
        take_over(&mut self.last, &mut self.rest);
    }
}

impl Sink for TallySink {
    ghost use Rattle.uc_gen.specs.Tally.{Tallies};

    ghost stands = { Tallies };

    ghost faults = { λ _. 0 };

    fn write(&mut self, piece: &[u8]) -> Result<(), SinkFailed> {
        let mut rest = piece;
        'lines: while let Some(at) = first_line_feed(rest) {
            self.take_part(&rest[..at]);
            self.end_line();
            rest = rest.split_at(at + 1).1;
        }
        self.take_part(rest);
        Ok(())
    }
}
