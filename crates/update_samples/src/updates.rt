//! Intel updates. Intel SDM volume 3A, "Microcode Update Facilities".
ghost use Rattle.std.specs.Prelude.{◌≡◌, IfOk, vec_len};

use crate::words::push_words;
use std::alloc::{AllocError, Global};

/// The words of a header: revision 0xf0 for signature 0x906ea and processor flags 2. Its size fields are 0 and stand for
/// 2,000 bytes of data in 2,048; the checksum goes with data of zeros.
pub const HEADER: [u32; 12] = [
    1,
    0xf0,
    0x0711_2023,
    0x0009_06ea,
    0xf8e5_d7ff,
    1,
    2,
    0,
    0,
    0,
    0,
    0,
];

/// The words of an update of 108 bytes: a header, 16 bytes of zeros, and a table with the pairs (0x906eb, 2) and
/// (0x906ec, 0x22).
pub const WITH_TABLE: [u32; 27] = [
    1,
    0xf0,
    0x0711_2023,
    0x0009_06ea,
    0xf8e5_d783,
    1,
    2,
    16,
    108,
    0,
    0,
    0,
    0,
    0,
    0,
    0,
    2,
    0x0e22_4320,
    0,
    0,
    0,
    0x0009_06eb,
    2,
    0xf8e5_d782,
    0x0009_06ec,
    0x22,
    0xf8e5_d761,
];

/// What tells updates of 16 bytes of data apart.
#[derive(Clone, Copy, Debug)]
pub struct SmallUpdate {
    pub rev: u32,
    pub flags: u32,
    /// The least revision that a load without a reboot needs.
    pub min: u32,
}

/// Revision 0xf0, for processor flags 2, with no least revision.
pub const SMALL: SmallUpdate = SmallUpdate {
    rev: 0xf0,
    flags: 2,
    min: 0,
};

/// The word that makes the sum of the header's words 0, modulo 2^32, where its checksum is still 0.
fn completing(header: &[u32; 12]) -> u32 {
    let mut total = 0u32;
    for word in header {
        total = total.wrapping_add(*word);
    }
    0u32.wrapping_sub(total)
}

/// Puts an update of 64 bytes behind the bytes. Its checksum makes the sum of its words 0.
pub fn push_update(bytes: &mut Vec<u8>, update: &SmallUpdate) -> Result<(), AllocError> {
    let mut words = HEADER;
    words[1] = update.rev;
    words[4] = 0;
    words[6] = update.flags;
    words[7] = 16;
    words[8] = 64;
    words[10] = update.min;
    words[4] = completing(&words);
    push_words(bytes, &words)?;
    push_words(bytes, &[0; 4])
}

/// A header with zeros behind it, up to a length.
fn update_of(alloc: Global, words: &[u32; 12], length: usize) -> Result<Vec<u8>, AllocError>
    ensures { IfOk result (λ bytes. vec_len bytes ≡ length) }
{
    let mut bytes = Vec::with_capacity(alloc, length)?;
    push_words(&mut bytes, words)?;
    bytes.resize(length, 0)?;
    Ok(bytes)
}

/// An update of 2,048 bytes, whose header states no sizes.
pub fn update_without_sizes(alloc: Global, rev: u32) -> Result<Vec<u8>, AllocError>
    ensures { IfOk result (λ bytes. vec_len bytes ≡ 2048) }
{
    let mut words = HEADER;
    words[1] = rev;
    words[4] = 0;
    words[4] = completing(&words);
    update_of(alloc, &words, 2_048)
}

/// An update of 102,400 bytes of revision 0xf0.
pub fn large_update(alloc: Global) -> Result<Vec<u8>, AllocError>
    ensures { IfOk result (λ bytes. vec_len bytes ≡ 102400) }
{
    let mut words = HEADER;
    words[4] = 0xf8e2_b82f;
    words[7] = 102_352;
    words[8] = 102_400;
    update_of(alloc, &words, 102_400)
}
