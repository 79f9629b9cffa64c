ghost use Rattle.std.specs.Prelude.{◌≡◌, ◌+◌, ◌%◌, ◌≤◌, ◌++◌, length, take, drop};
ghost use Rattle.byteorder.specs.Endian.{little_bytes};
ghost use Rattle.uc_bytes.specs.Words.{word, half, word_sum_of};

use byteorder::{ByteOrder, LittleEndian};

/// The little-endian number in the four bytes from `at` on.
#[tactic(auto, unfolding(crate::specs::Words::word))]
pub fn word_at(bytes: &[u8], at: usize) -> u32
    requires { at + 4 ≤ length bytes.now }
    ensures { result ≡ word bytes.now at }
{
    LittleEndian::read_u32(&bytes[at..])
}

/// The little-endian number in the two bytes from `at` on.
#[tactic(auto, unfolding(crate::specs::Words::half))]
pub fn half_at(bytes: &[u8], at: usize) -> u16
    requires { at + 2 ≤ length bytes.now }
    ensures { result ≡ half bytes.now at }
{
    LittleEndian::read_u16(&bytes[at..])
}

/// Puts a number into the four bytes from `at` on, the lowest byte first. All other bytes stay.
pub fn put_word(bytes: &mut [u8], at: usize, value: u32)
    requires { at + 4 ≤ length bytes.old }
    ensures bytes { bytes.new ≡ take at bytes.old ++ little_bytes 4 value ++ drop (at + 4) bytes.old }
    ensures word { word bytes.new at ≡ value }
{
    LittleEndian::write_u32(&mut bytes[at..], value);
}

/// The sum of the words of `bytes`, modulo 2^32.
#[tactic(auto, unfolding(crate::specs::Words::word_sum_of))]
pub fn word_sum(bytes: &[u8]) -> u32
    requires { length bytes.now % 4 ≡ 0 }
    ensures { result ≡ word_sum_of bytes.now }
{
    let mut total = 0u32;
    for chunk in bytes.chunks_exact(4) {
        total = total.wrapping_add(LittleEndian::read_u32(chunk));
    }
    total
}
