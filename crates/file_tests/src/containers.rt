//! Equivalence tables, and AMD files that are cut at each place.
use amd_equiv::{EquivTable, read_equiv};
use amd_file::{AmdContainer, AmdPatch, AmdStream, read_amd};
use std::alloc::Global;
use std::test::Fail;
use uc_bytes::{FileAnswer, FileCause, FileFault};
use update_samples::{bytes_of, two_containers};

/// The word that begins a container, "DMA" and a zero byte in memory.
const MAGIC: u32 = 0x0041_4d44;

/// A container's head, and a table of three rows, two of them of one signature, with four bytes after the last.
const TABLE: [u32; 16] = [
    0x0041_4d44,
    0,
    52,
    0x00a2_0f10,
    0,
    0,
    0x0000_a210,
    0x00a2_0f12,
    0,
    0,
    0xffff_a212,
    0x00a2_0f10,
    0,
    0,
    0x0000_a213,
    7,
];

/// The first three rows, where there are three.
fn three_rows(table: &EquivTable<'_>) -> Option<[(u32, u16); 3]> {
    if table.rows() != 3 {
        return None;
    }
    Some([table.row(0), table.row(1), table.row(2)])
}

#[test]
fn gives_the_first_row_of_a_signature(rt: HostRuntime) -> Result<(), Fail> {
    let mut bytes = bytes_of(rt.alloc(), &TABLE)?;
    bytes.extend_from_slice(b"a section")?;
    let read = read_equiv(bytes.as_slice());
    assert!(rt; read.is_ok());
    if let Ok(table) = read {
        assert_eq!(rt; table.len(), 64);
        let rows = [
            (0x00a2_0f10, 0xa210),
            (0x00a2_0f12, 0xa212),
            (0x00a2_0f10, 0xa213),
        ];
        assert_eq!(rt; three_rows(&table), Some(rows));
        assert_eq!(rt; table.id_of(0x00a2_0f10), 0xa210);
        assert_eq!(rt; table.id_of(0x00a2_0f12), 0xa212);
        assert_eq!(rt; table.id_of(7), 0);
    }
    Ok(())
}

/// Where a file goes wrong, and why, if it does. Every file here is short enough.
fn fault_of(alloc: Global, bytes: &[u8]) -> Option<(u64, FileCause)> {
    if bytes.len() > 67_108_864 {
        return None;
    }
    match read_amd(alloc, bytes) {
        Err(FileAnswer::Fault(FileFault { offset, cause })) => Some((offset, cause)),
        _ => None,
    }
}

/// What a table and a file are refused for that do not begin as a container. No command comes to it.
#[test]
fn what_does_not_begin_a_container_is_told_so(rt: HostRuntime) -> Result<(), Fail> {
    let fronts: [(&[u32], FileCause); 5] = [
        (&[], FileCause::EquivShort),
        (&[MAGIC + 1, 1], FileCause::EquivShort),
        (&[MAGIC + 1, 1, 0], FileCause::Magic),
        (&[0x444d_4100, 0, 16, 0, 0, 0, 0], FileCause::Magic),
        (&[MAGIC, 1, 15], FileCause::EquivType),
    ];
    for (words, cause) in &fronts {
        let bytes = bytes_of(rt.alloc(), *words)?;
        let fault = read_equiv(bytes.as_slice())
            .err()
            .map(|fault| FileCause::from(fault));
        assert_eq!(rt; fault, Some(*cause));
        assert_eq!(rt; fault_of(rt.alloc(), bytes.as_slice()), Some((0, *cause)));
    }
    Ok(())
}

/// What the first bytes of the two containers have for a fault.
fn fault_at(length: usize) -> Option<(u64, FileCause)> {
    match length {
        0..=11 => Some((0, FileCause::EquivShort)),
        12..=43 => Some((0, FileCause::TableCut)),
        45..=51 => Some((44, FileCause::SectionShort)),
        52..=115 => Some((44, FileCause::PatchCut)),
        117..=119 => Some((116, FileCause::SectionShort)),
        120..=127 => Some((116, FileCause::EquivShort)),
        128..=159 => Some((116, FileCause::TableCut)),
        161..=167 => Some((160, FileCause::SectionShort)),
        168..=231 => Some((160, FileCause::PatchCut)),
        _ => None,
    }
}

/// The patch of a container of the two that begins there.
fn patch_of_container(start: u64, rev: u32) -> AmdPatch {
    AmdPatch {
        start: start.saturating_add(52),
        len: 64,
        rev,
        id: 0xa210,
    }
}

/// A container with a table of 32 bytes and this patch alone.
fn is_container(container: &AmdContainer, start: u64, rev: u32) -> bool {
    container.start == start
        && container.table_len == 32
        && container.patches.as_slice() == [patch_of_container(start, rev)].as_slice()
}

/// The two containers.
fn are_two_containers(answer: Result<Vec<AmdContainer>, FileAnswer>) -> bool {
    match answer {
        Ok(containers) => match containers.as_slice() {
            [first, second] => {
                is_container(first, 0, 0x0a20_102b) && is_container(second, 116, 0x0a20_1210)
            }
            _ => false,
        },
        Err(_) => false,
    }
}

/// What a stream answers that is fed a file in these pieces.
fn streamed(alloc: Global, pieces: &[&[u8]]) -> Result<Vec<AmdContainer>, FileAnswer> {
    let mut stream = AmdStream::new(alloc);
    for piece in pieces {
        if piece.len() <= 67_108_864 && stream.fed() <= 67_108_864 - piece.len() {
            stream.feed(piece)?;
        }
    }
    stream.finish()
}

#[test]
fn answers_the_same_however_a_file_is_cut(rt: HostRuntime) -> Result<(), Fail> {
    let alloc = rt.alloc();
    let file = two_containers(alloc)?;
    let bytes = file.as_slice();
    for first in 0..bytes.len() {
        let (front, rest) = bytes.split_at(first);
        let answer = streamed(alloc, [front, rest].as_slice());
        assert!(rt; are_two_containers(answer), "cut at {first}");
        for second in 0..rest.len() {
            let (middle, back) = rest.split_at(second);
            let answer = streamed(alloc, [front, middle, back].as_slice());
            assert!(rt;
                are_two_containers(answer),
                "cut at {first} and after {second} more"
            );
        }
    }
    for length in 0..bytes.len() {
        let (short, _) = bytes.split_at(length);
        for first in 0..length {
            let (front, rest) = short.split_at(first);
            let fault = match streamed(alloc, [front, rest].as_slice()) {
                Err(FileAnswer::Fault(FileFault { offset, cause })) => Some((offset, cause)),
                _ => None,
            };
            assert_eq!(rt; fault, fault_at(length), "{length} bytes cut at {first}");
        }
    }
    Ok(())
}

/// How many bytes a stream takes one by one before it answers a fault, and the fault.
fn first_refusal(alloc: Global, bytes: &[u8]) -> Option<(usize, FileFault)> {
    let mut stream = AmdStream::new(alloc);
    for (count, piece) in bytes.chunks(1).enumerate() {
        if stream.fed() < 67_108_864 && piece.len() <= 1 {
            if let Err(FileAnswer::Fault(fault)) = stream.feed(piece) {
                return Some((count, fault));
            }
        }
    }
    None
}

#[test]
fn answers_a_fault_as_soon_as_it_is_settled(rt: HostRuntime) -> Result<(), Fail> {
    let alloc = rt.alloc();
    let whole = two_containers(alloc)?;
    assert_eq!(rt; first_refusal(alloc, whole.as_slice()), None);
    let changes = [
        (0, 11, 0, FileCause::Magic),
        (4, 11, 0, FileCause::EquivType),
        (44, 51, 44, FileCause::SectionType),
        (160, 167, 160, FileCause::SectionType),
        (184, 231, 160, FileCause::Chipset),
        (188, 231, 160, FileCause::Chipset),
    ];
    for (at, count, offset, cause) in &changes {
        let mut changed = two_containers(alloc)?;
        if *at < changed.len() {
            changed.as_mut_slice()[*at] = 7;
        }
        let fault = FileFault {
            offset: *offset,
            cause: *cause,
        };
        let refusal = first_refusal(alloc, changed.as_slice());
        assert_eq!(rt; refusal, Some((*count, fault)), "byte {at}");
    }
    Ok(())
}

#[test]
fn answers_a_settled_fault_again(rt: HostRuntime) -> Result<(), Fail> {
    let alloc = rt.alloc();
    let mut changed = two_containers(alloc)?;
    if changed.len() == 232 {
        changed.as_mut_slice()[4] = 1;
    }
    let fault = FileAnswer::Fault(FileFault {
        offset: 0,
        cause: FileCause::EquivType,
    });
    let mut stream = AmdStream::new(alloc);
    for piece in changed.as_slice().chunks(60) {
        if piece.len() <= 60 && stream.fed() <= 67_108_804 {
            assert_eq!(rt; stream.feed(piece), Err(fault));
        }
    }
    assert_eq!(rt; stream.finish().err(), Some(fault));
    Ok(())
}
