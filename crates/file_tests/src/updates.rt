//! Intel headers word by word, and Intel files that are cut at each place.
ghost use Rattle.std.specs.Prelude.{◌<◌};

use intel_file::{IntelStream, IntelUpdate};
use intel_header::{IntelHeader, date_of, day_of, read_header};
use std::alloc::{AllocError, Global};
use std::test::Fail;
use uc_bytes::{FileAnswer, FileCause, FileFault};
use update_samples::{WITH_TABLE, bytes_of};

/// The words of a sound header, no two alike but the two that have to be 1.
const SOUND: [u32; 12] = [
    1,
    0xb4,
    0x0711_2023,
    0x0009_06ea,
    0xf8e5_d783,
    1,
    0x22,
    16,
    108,
    0x30,
    0x15,
    0x2c,
];

#[test]
fn each_word_has_its_place(rt: HostRuntime) -> Result<(), Fail> {
    let mut bytes = bytes_of(rt.alloc(), &SOUND)?;
    let header = IntelHeader {
        version: 1,
        rev: 0xb4,
        date: 0x0711_2023,
        sig: 0x0009_06ea,
        cksum: 0xf8e5_d783,
        loader: 1,
        flags: 0x22,
        size_field: 16,
        total_field: 108,
        meta: 0x30,
        min: 0x15,
        reserved: 0x2c,
    };
    assert_eq!(rt; read_header(bytes.as_slice()), Ok(header));
    bytes.push(7)?;
    assert_eq!(rt; read_header(bytes.as_slice()), Ok(header));
    assert_eq!(rt; date_of(&header), day_of(0x0711_2023));
    Ok(())
}

/// The update with a table, whose checksum and last word are given.
fn with_table(alloc: Global, sum: u32, last: u32) -> Result<Vec<u8>, AllocError> {
    let mut words = WITH_TABLE;
    words[17] = sum;
    words[26] = last;
    bytes_of(alloc, &words)
}

/// Feeds a piece where the file stays within its limit, as all files here do.
fn feed_within(stream: &mut IntelStream, piece: &[u8]) -> Result<(), FileAnswer> {
    let count = piece.len() as u64;
    if count > 67_108_864 || stream.fed() > 67_108_864 - count {
        return Ok(());
    }
    stream.feed(piece)
}

/// What a stream answers that is fed pieces, one after another.
fn streamed(alloc: Global, pieces: &[&[u8]]) -> Result<Vec<IntelUpdate>, FileAnswer> {
    let mut stream = IntelStream::new(alloc);
    for piece in pieces {
        feed_within(&mut stream, piece)?;
    }
    stream.finish()
}

/// The same of pieces of one length.
fn streamed_by(alloc: Global, bytes: &[u8], length: usize) -> Result<Vec<IntelUpdate>, FileAnswer>
    requires { 0 < length }
{
    let mut stream = IntelStream::new(alloc);
    for piece in bytes.chunks(length) {
        feed_within(&mut stream, piece)?;
    }
    stream.finish()
}

#[test]
fn answers_the_same_however_a_file_is_cut(rt: HostRuntime) -> Result<(), Fail> {
    let alloc = rt.alloc();
    let whole = with_table(alloc, 0x0e22_4320, 0xf8e5_d761)?;
    let bad = with_table(alloc, 0x0e22_431f, 0xf8e5_d762)?;
    let fault = FileFault {
        offset: 0,
        cause: FileCause::EntrySum(1),
    };
    let bytes = whole.as_slice();
    let faulty = bad.as_slice();
    let count = bytes.len();
    let updates = streamed(alloc, &[bytes])?;
    assert_eq!(rt; updates.len(), 1);
    for length in 1..=count {
        let answer = streamed_by(alloc, bytes, length)?;
        assert_eq!(rt; answer.as_slice(), updates.as_slice(), "{length} bytes");
        let answer = streamed_by(alloc, faulty, length).err();
        assert_eq!(rt; answer, Some(FileAnswer::Fault(fault)), "{length} bytes");
    }
    for first in 0..=count {
        for second in first..=count {
            let pieces = [&bytes[..first], &bytes[first..second], &bytes[second..]];
            let answer = streamed(alloc, &pieces)?;
            assert_eq!(rt; answer.as_slice(), updates.as_slice(), "{first} {second}");
        }
    }
    Ok(())
}

#[test]
fn answers_a_fault_with_the_byte_that_settles_it(rt: HostRuntime) -> Result<(), Fail> {
    let alloc = rt.alloc();
    let bad = with_table(alloc, 0x0e22_431f, 0xf8e5_d762)?;
    let fault = FileAnswer::Fault(FileFault {
        offset: 0,
        cause: FileCause::EntrySum(1),
    });
    let mut stream = IntelStream::new(alloc);
    for (place, piece) in bad.as_slice().chunks(1).enumerate() {
        let answer = feed_within(&mut stream, piece).err();
        let settled = if place == 107 { Some(fault) } else { None };
        assert_eq!(rt; answer, settled, "byte {place}");
    }
    assert_eq!(rt; bad.len(), 108);
    assert_eq!(rt; feed_within(&mut stream, &[0]).err(), Some(fault));
    assert_eq!(rt; stream.finish().err(), Some(fault));
    Ok(())
}
