//! Files of both vendors that are cut at each place.
use file_rows::{FileReader, FileRows};
use std::alloc::Global;
use std::test::Fail;
use uc_bytes::{FileAnswer, FileCause, FileFault};
use update_samples::{CONTAINER, WITH_TABLE, bytes_of};

/// Feeds a piece where the file stays within its limit, as all files here do.
fn feed_within(reader: &mut FileReader, piece: &[u8]) -> Result<(), FileAnswer> {
    let count = piece.len();
    if count > 67_108_864 || reader.fed() > 67_108_864 - count {
        return Ok(());
    }
    reader.feed(piece)
}

/// How many entries a file has that comes in these pieces, and where the last begins, with its length.
fn read_in(alloc: Global, pieces: &[&[u8]]) -> Result<(usize, Option<(u32, u32)>), FileAnswer> {
    let mut reader = FileReader::new(alloc);
    for piece in pieces {
        feed_within(&mut reader, piece)?;
    }
    match reader.finish() {
        Ok(FileRows::Updates(kept)) => Ok((
            kept.rows.len(),
            kept.rows.as_slice().last().map(|row| (row.start, row.len)),
        )),
        Ok(FileRows::Patches(kept)) => Ok((
            kept.rows.len(),
            kept.rows.as_slice().last().map(|row| (row.start, row.len)),
        )),
        Err(fault) => Err(FileAnswer::Fault(fault)),
    }
}

#[test]
fn it_does_not_matter_how_a_file_is_cut(rt: HostRuntime) -> Result<(), Fail> {
    let alloc = rt.alloc();
    let update = bytes_of(alloc, &WITH_TABLE)?;
    let container = bytes_of(alloc, &CONTAINER)?;
    let files = [
        (update.as_slice(), (1, Some((0, 108)))),
        (container.as_slice(), (1, Some((52, 64)))),
    ];
    for (file, wanted) in &files {
        for first in 0..=file.len() {
            for second in first..=file.len() {
                let pieces = [&file[..first], &file[first..second], &file[second..]];
                assert_eq!(rt; read_in(alloc, &pieces), Ok(*wanted), "{first} {second}");
            }
        }
    }
    Ok(())
}

/// What a file is told to be that comes in two pieces: with the first piece, with the second, and in the end.
fn answers_to(alloc: Global, front: &[u8], rest: &[u8]) -> (bool, bool, Option<FileFault>) {
    let mut reader = FileReader::new(alloc);
    let first = feed_within(&mut reader, front).is_ok();
    let second = feed_within(&mut reader, rest).is_ok();
    (first, second, reader.finish().err())
}

#[test]
fn a_fault_is_told_with_the_piece_that_settles_it(rt: HostRuntime) -> Result<(), Fail> {
    let alloc = rt.alloc();
    let mut words = WITH_TABLE;
    words[17] = 0x0e22_431f;
    words[26] = 0xf8e5_d762;
    let update = bytes_of(alloc, &words)?;
    let bad = FileFault {
        offset: 0,
        cause: FileCause::EntrySum(1),
    };
    let mut words = CONTAINER;
    words[11] = 2;
    let container = bytes_of(alloc, &words)?;
    let kind = FileFault {
        offset: 44,
        cause: FileCause::SectionType,
    };
    let files = [
        (update.as_slice(), 108, bad),
        (container.as_slice(), 52, kind),
    ];
    for (file, settled, fault) in &files {
        for cut in 0..=file.len() {
            let (first, second, end) = answers_to(alloc, &file[..cut], &file[cut..]);
            assert_eq!(rt; first, cut < *settled, "{cut}");
            assert_eq!(rt; second, false, "{cut}");
            assert_eq!(rt; end, Some(*fault), "{cut}");
        }
    }
    Ok(())
}
