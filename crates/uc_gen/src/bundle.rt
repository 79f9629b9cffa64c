//! The Intel file.
ghost use Rattle.std.specs.Prelude.{◌≡◌, ℕ, ◌+◌, ◌*◌, ◌%◌, ◌^◌, ◌<◌, ◌++◌, sum, IfOk, OnOk};
ghost use Rattle.uc_gen.specs.Bundle.{bytes_of, header_words, completing, draws_behind, update_words, intel_file};
ghost use Rattle.uc_gen.specs.Draws.{state_after};

use crate::draws::Draws;
use crate::pushing::push_words;
use arrayvec::ArrayVec;
use std::alloc::Global;
use uc_bytes::NoMemory;

/// The length of the file, in bytes.
const LENGTH: usize = 1_048_576;

/// The sum of words, modulo 2^32.
fn total(words: &[u32]) -> u32
    ensures { result ≡ sum words.now % 2 ^ 32 }
{
    let mut total = 0u32;
    'words: for word in words {
        total = total.wrapping_add(*word);
    }
    total
}

/// A header whose sizes stand for 2,000 bytes of data in 2,048.
fn header(rev: u32, sig: u32, cksum: u32, flags: u32) -> [u32; 12]
    ensures { result ≡ header_words rev sig cksum flags }
{
    [1, rev, 0x0711_2023, sig, cksum, 1, flags, 0, 0, 0, 0, 0]
}

/// The word that makes the sum of words, of two parts, 0 with it, modulo 2^32.
fn completing(front: &[u32], back: &[u32]) -> u32
    ensures { result ≡ completing (front.now ++ back.now) }
{
    0u32.wrapping_sub(total(front).wrapping_add(total(back)))
}

/// The words of data that are drawn next.
fn draw_data(draws: &mut Draws) -> ArrayVec<u32, 500>
    ensures words { (number before : ℕ) → draws.old.state ≡ state_after number before →
        result.items ≡ draws_behind number before 500 }
    ensures state { (number before : ℕ) → draws.old.state ≡ state_after number before →
        draws.new.state ≡ state_after number (before + 500) }
{
    let mut words = ArrayVec::new();
    'words: for _ in 0..500u32 {
        words.push(draws.draw());
    }
    words
}

/// Puts the update that is drawn next behind the bytes. Its checksum makes the sum of its words 0.
fn push_update(bytes: &mut Vec<u8>, draws: &mut Draws) -> Result<(), NoMemory>
    ensures bytes { (number before : ℕ) → draws.old.state ≡ state_after number before →
        OnOk result (bytes.new.items ≡ bytes.old.items ++ bytes_of (update_words number before)) }
    ensures state { (number before : ℕ) → draws.old.state ≡ state_after number before →
        OnOk result (draws.new.state ≡ state_after number (before + 503)) }
{
    let sig = 0x906e0 + draws.draw() % 16;
    let flags = draws.draw() % 256;
    let rev = 0x81 + draws.draw() % 64;
    let payload = draw_data(draws);
    let cksum = completing(&header(rev, sig, 0, flags), payload.as_slice());
    push_words(bytes, &header(rev, sig, cksum, flags))?;
    push_words(bytes, payload.as_slice())
}

/// An Intel file of 512 updates, of 1,048,576 bytes.
pub fn make_intel(alloc: Global, number: u64) -> Result<Vec<u8>, NoMemory>
    ensures { IfOk result (λ bytes. bytes.items ≡ intel_file number) }
{
    let mut bytes = Vec::with_capacity(alloc, LENGTH)?;
    let mut draws = Draws::new(number);
    'updates: for _ in 0..512u32 {
        push_update(&mut bytes, &mut draws)?;
    }
    Ok(bytes)
}
