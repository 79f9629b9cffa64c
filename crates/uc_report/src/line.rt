//! A line that is composed from its end, one text before another: so each number is written where it stays, however
//! many digits it has. The line is lent and not handed out: one that is returned would be copied, and the copy would
//! wait for the bytes that were stored just before.
ghost use Rattle.std.specs.Prelude.{◌≤◌};

use itoa::write_digits;
use std::marker::Model;
use uc_text::hex8;

/// How many bytes a line has at most.
const MOST: usize = 160;

/// A line of at most 160 bytes, of which the end is there. A contract sees the list of its bytes.
#[derive(Drop)]
pub struct Line {
    bytes: [u8; MOST],
    /// Where it begins.
    at: usize,
}

impl Model for Line {
    ghost use Rattle.std.specs.Prelude.{ℕ, List, drop, ◌≤◌};

    ghost Value = { List ℕ };

    ghost view = { λ line. drop line.at line.bytes };

    ghost invariant = { λ line. line.at ≤ 160 };
}

impl Line {
    ghost use Rattle.std.specs.Prelude.{◌≡◌, ◌+◌, ◌≤◌, ◌++◌, [], length, decimal};
    ghost use Rattle.uc_text.specs.Digits.{hex8_of};

    /// Nothing.
    #[inline(always)]
    pub fn new() -> Line
        ensures { result ≡ [] }
    {
        Line {
            bytes: [0; MOST],
            at: MOST,
        }
    }

    /// The bytes that are there.
    pub fn as_slice(&self) -> &[u8]
        ensures { result.now ≡ self.now }
    {
        &self.bytes[self.at..]
    }

    /// Puts a text before what is there.
    #[inline(always)]
    pub fn put(&mut self, text: &[u8])
        requires { length text.now + length self.old ≤ 160 }
        ensures bytes { self.new ≡ text.now ++ self.old }
        ensures len { length self.new ≡ length text.now + length self.old }
    {
        let end = self.at;
        self.at -= text.len();
        self.bytes[self.at..end].copy_from_slice(text);
    }

    /// Puts the shortest decimal spelling of a number before what is there.
    #[inline(always)]
    pub fn put_dec(&mut self, value: u64)
        requires { 20 + length self.old ≤ 160 }
        ensures bytes { self.new ≡ decimal value ++ self.old }
        ensures len { length self.new ≤ 20 + length self.old }
    {
        self.at = write_digits(value, &mut self.bytes, self.at);
    }

    /// Puts `0x` and eight hexadecimal digits before what is there.
    #[inline(always)]
    pub fn put_hex(&mut self, value: u32)
        requires { 10 + length self.old ≤ 160 }
        ensures bytes { self.new ≡ hex8_of value ++ self.old }
        ensures len { length self.new ≡ 10 + length self.old }
    {
        self.put(&hex8(value));
    }
}
