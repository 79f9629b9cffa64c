//! Catalogues that files are added to: in pieces, and behind one that is refused.
use std::test::Fail;
use uc_bytes::{FileAnswer, FileCause, FileFault};
use uc_catalog::{Catalog, EntryFacts};
use update_samples::{SMALL, SmallUpdate, WITH_TABLE, bytes_of, push_update, push_words};

/// The revision 0xf4.
const LATER: SmallUpdate = SmallUpdate { rev: 0xf4, ..SMALL };

/// Adds a file; every file here is short enough, and there are few.
fn add(catalog: &mut Catalog, bytes: Vec<u8>) -> Result<(), FileAnswer> {
    if catalog.files() >= 16 || bytes.len() > 67_108_864 {
        return Err(FileAnswer::NoMemory);
    }
    catalog.add(bytes)
}

/// The pairs of an entry that has three.
fn three_pairs(catalog: &Catalog, i: u32) -> Option<[(u32, u32); 3]> {
    if i >= catalog.len() || catalog.pairs(i) != 3 {
        return None;
    }
    Some([catalog.pair(i, 0), catalog.pair(i, 1), catalog.pair(i, 2)])
}

/// The facts of an entry, where it is there.
fn entry(catalog: &Catalog, i: u32) -> Option<EntryFacts> {
    if i < catalog.len() {
        Some(catalog.entry(i))
    } else {
        None
    }
}

#[test]
fn a_refused_file_leaves_the_catalogue_as_it_was(rt: HostRuntime) -> Result<(), Fail> {
    let alloc = rt.alloc();
    let mut catalog = Catalog::new(alloc);
    let mut first = Vec::new(alloc);
    push_update(&mut first, &SMALL)?;
    assert_eq!(rt; add(&mut catalog, first), Ok(()));
    let mut second = Vec::new(alloc);
    push_update(&mut second, &SMALL)?;
    push_update(&mut second, &LATER)?;
    second.truncate(124);
    push_words(&mut second, &[0xffff_ffff])?;
    let sum = FileFault {
        offset: 64,
        cause: FileCause::Sum,
    };
    assert_eq!(rt; add(&mut catalog, second), Err(FileAnswer::Fault(sum)));
    assert_eq!(rt; (catalog.files(), catalog.len()), (1, 1));
    let mut third = Vec::new(alloc);
    push_update(&mut third, &LATER)?;
    let copy = Vec::from_slice(alloc, third.as_slice())?;
    assert_eq!(rt; add(&mut catalog, third), Ok(()));
    assert_eq!(rt; (catalog.files(), catalog.len()), (2, 2));
    assert_eq!(rt;
        entry(&catalog, 1).map(|facts| (facts.file, facts.rev)),
        Some((1, 0xf4))
    );
    if catalog.len() == 2 && catalog.keeps_bytes() {
        assert_eq!(rt; catalog.bytes_of(1), copy.as_slice());
    }
    Ok(())
}

/// Feeds a file in two pieces, in place of one that was being read, and ends it; every file here is short.
fn add_in_two(catalog: &mut Catalog, front: &[u8], rest: &[u8]) -> Result<(), FileAnswer> {
    if catalog.files() >= 16 || front.len() > 1_024 || rest.len() > 1_024 {
        return Err(FileAnswer::NoMemory);
    }
    catalog.drop_file();
    catalog.feed(front)?;
    catalog.feed(rest)?;
    catalog.end_file()
}

#[test]
fn a_file_in_pieces_is_added_as_a_whole_one(rt: HostRuntime) -> Result<(), Fail> {
    let alloc = rt.alloc();
    let file = bytes_of(alloc, &WITH_TABLE)?;
    let bytes = file.as_slice();
    let pairs = [(0x0009_06ea, 2), (0x0009_06eb, 2), (0x0009_06ec, 0x22)];
    for cut in 0..=bytes.len() {
        let mut catalog = Catalog::new(alloc);
        let answer = add_in_two(&mut catalog, &bytes[..cut], &bytes[cut..]);
        assert_eq!(rt; answer, Ok(()), "{cut}");
        assert_eq!(rt; three_pairs(&catalog, 0), Some(pairs), "{cut}");
        if catalog.len() == 1 && catalog.keeps_bytes() {
            assert_eq!(rt; catalog.bytes_of(0), bytes, "{cut}");
        }
    }
    let mut catalog = Catalog::of_facts(alloc);
    for cut in 1..bytes.len() {
        let cause = if cut < 48 {
            FileCause::Short
        } else {
            FileCause::Truncated
        };
        let fault = FileAnswer::Fault(FileFault { offset: 0, cause });
        let answer = add_in_two(&mut catalog, &bytes[..cut], &[]);
        assert_eq!(rt; answer, Err(fault), "{cut}");
        assert_eq!(rt; catalog.files(), 0, "{cut}");
    }
    let answer = add_in_two(&mut catalog, bytes, &[]);
    assert_eq!(rt; answer, Ok(()));
    assert_eq!(rt; (catalog.files(), catalog.len()), (1, 1));
    Ok(())
}
