//! Files in memory that fail at a call, and files of the host.
use std::alloc::{AllocError, Global};
use std::io::{ErrorKind, Read};
use std::test::Fail;
use std::{fs, io};
use uc_io::{
    Files, HostFiles, MemFiles, OpenAnswer, PieceFailed, Pieces, ReadAnswer, SureFiles, read_some,
};

/// How a read ended, without its bytes.
#[derive(Clone, Copy, Debug, PartialEq, Eq)]
enum Ending {
    Read,
    Failed,
    TooLong(u64),
    NoMemory,
}

fn ending_of(answer: &Result<Vec<u8>, ReadAnswer>) -> Ending {
    match answer {
        Ok(_) => Ending::Read,
        Err(ReadAnswer::Failed) => Ending::Failed,
        Err(ReadAnswer::TooLong(taken)) => Ending::TooLong(*taken),
        Err(ReadAnswer::NoMemory) => Ending::NoMemory,
    }
}

#[test]
fn files_in_memory_give_what_was_put_last(rt: HostRuntime) -> Result<(), Fail> {
    let mut files = MemFiles::new(rt.alloc());
    files.put("a", b"first")?;
    files.put("b", b"")?;
    files.put("a", b"second")?;
    let table = [
        ("a", 6, Ending::Read),
        ("a", 5, Ending::TooLong(6)),
        ("b", 0, Ending::Read),
        ("c", 9, Ending::Failed),
        ("", 9, Ending::Failed),
    ];
    for (name, limit, wanted) in &table {
        let answer = files.read(rt.alloc(), name, *limit);
        assert_eq!(rt; ending_of(&answer), *wanted, "{name}");
    }
    let bytes = files.read(rt.alloc(), "a", 6)?;
    assert_eq!(rt; bytes.as_slice(), b"second".as_slice());
    Ok(())
}

/// A read, an opening, two pieces of at most two bytes and a read of the name `a`: which of these calls failed.
fn failures(files: &mut MemFiles, alloc: Global) -> [bool; 5] {
    let mut piece = [0; 2];
    [
        files.read(alloc, "a", 3).is_err(),
        files.open_file(alloc, "a").is_err(),
        files.next(&mut piece).is_err(),
        files.next(&mut piece).is_err(),
        files.read(alloc, "a", 3).is_err(),
    ]
}

#[test]
fn files_in_memory_fail_at_the_calls_that_are_named(rt: HostRuntime) -> Result<(), Fail> {
    let table = [
        (0, 6, [false, false, false, false, false]),
        (1, 1, [true, false, false, false, false]),
        (2, 9, [false, true, false, false, false]),
        (3, 5, [false, false, true, false, true]),
        (4, 1, [true, false, false, true, false]),
        (5, 4, [false, false, false, true, true]),
    ];
    for (first, second, wanted) in &table {
        let mut files = MemFiles::new(rt.alloc());
        files.put("a", b"xyz")?;
        files.fail_at(*first)?;
        files.fail_at(*second)?;
        let failed = failures(&mut files, rt.alloc());
        assert!(rt; failed == *wanted, "{first} and {second}");
    }
    Ok(())
}

#[test]
fn sure_files_hold_nothing_under_other_names(rt: HostRuntime) -> Result<(), Fail> {
    let mut files = SureFiles::new(rt.alloc());
    files.put("a", b"xyz")?;
    let mut piece = [0; 2];
    assert!(rt; files.next(&mut piece).is_ok_and(|taken| taken == 0));
    files.open_file(rt.alloc(), "a")?;
    for wanted in [2, 1, 0] {
        assert!(rt; files.next(&mut piece).is_ok_and(|taken| taken == wanted));
    }
    assert_eq!(rt;
        files.read(rt.alloc(), "a", 3)?.as_slice(),
        b"xyz".as_slice()
    );
    assert_eq!(rt; files.read(rt.alloc(), "b", 3)?.len(), 0);
    Ok(())
}

/// Bytes that repeat after a prime number of them.
fn pattern(alloc: Global, length: u32) -> Result<Vec<u8>, AllocError> {
    (0..length).map(|i| (i % 251) as u8).collect(alloc)
}

/// All that is left, taken in pieces of at most 50,000 bytes.
fn taken_in_pieces<F: Files>(files: &mut F, alloc: Global) -> Result<Vec<u8>, ReadAnswer> {
    let mut all = Vec::new(alloc);
    let mut piece = [0; 50_000];
    for _ in 0..100 {
        let taken = files.next(&mut piece)?;
        all.extend_from_slice(&piece[..taken])?;
    }
    Ok(all)
}

#[test]
fn files_of_the_host_are_read_whole(rt: HostRuntime) -> Result<(), Fail> {
    let name = "files_of_the_host.bin";
    let held = pattern(rt.alloc(), 200_000)?;
    fs::write(&rt, name, held.as_slice())?;
    let mut files = HostFiles::new(rt.clone()?);
    let whole = files.read(rt.alloc(), name, 200_000)?;
    let cut = files.read(rt.alloc(), name, 199_999);
    files.open_file(rt.alloc(), name)?;
    let in_pieces = taken_in_pieces(&mut files, rt.alloc())?;
    fs::remove_file(&rt, name)?;
    let missing = files.read(rt.alloc(), name, 200_000);
    let not_opened = files.open_file(rt.alloc(), name);
    assert!(rt; whole == held);
    assert!(rt; in_pieces == held);
    assert_eq!(rt; ending_of(&cut), Ending::TooLong(200_000));
    assert_eq!(rt; ending_of(&missing), Ending::Failed);
    assert!(rt; matches!(not_opened, Err(OpenAnswer::Failed)));
    Ok(())
}

/// A file of one byte and a folder, by their names.
const FILE: &str = "one_byte.bin";

const FOLDER: &str = "a_folder";

#[test]
fn a_folder_is_no_file(rt: HostRuntime) -> Result<(), Fail> {
    fs::create_dir(&rt, FOLDER)?;
    let mut files = HostFiles::new(rt.clone()?);
    let whole = files.read(rt.alloc(), FOLDER, 10);
    let opened = files.open_file(rt.alloc(), FOLDER);
    let piece = files.next(&mut [0; 10]);
    fs::remove_dir(&rt, FOLDER)?;
    assert_eq!(rt; ending_of(&whole), Ending::Failed);
    assert!(rt;
        files
            .failure()
            .is_some_and(|failure| failure.why().kind() == ErrorKind::IsADirectory)
    );
    assert!(rt; opened.is_ok());
    assert!(rt; piece == Err(PieceFailed));
    assert!(rt;
        files
            .failure()
            .is_some_and(|failure| failure.name() == Some(FOLDER))
    );
    Ok(())
}

#[test]
fn nothing_is_open_after_a_read_or_a_refusal(rt: HostRuntime) -> Result<(), Fail> {
    fs::write(&rt, FILE, b"x")?;
    let mut files = HostFiles::new(rt.clone()?);
    let mut piece = [0; 10];
    let before = files.next(&mut piece);
    files.open_file(rt.alloc(), FILE)?;
    let whole = files.read(rt.alloc(), FILE, 1)?;
    let after_read = files.next(&mut piece);
    files.open_file(rt.alloc(), FILE)?;
    let refused = files.open_file(rt.alloc(), "missing.bin");
    let after_refusal = files.next(&mut piece);
    let failure = files.failure().ok_or("no failure")?;
    assert!(rt;
        failure.name() == Some("missing.bin") && failure.why().kind() == ErrorKind::NotFound
    );
    files.open_file(rt.alloc(), FILE)?;
    let opened = files.next(&mut piece);
    fs::remove_file(&rt, FILE)?;
    assert_eq!(rt; whole.as_slice(), b"x".as_slice());
    assert!(rt; refused.is_err());
    assert!(rt; before == Ok(0) && after_read == Ok(0) && after_refusal == Ok(0));
    assert!(rt; opened == Ok(1));
    Ok(())
}

/// Gives "xyz", two bytes at a time at most. Its first call is interrupted.
#[derive(Drop)]
struct Interrupted {
    given: usize,
    was_interrupted: bool,
}

impl Read for Interrupted {
    fn read(&mut self, buf: &mut [u8]) -> io::Result<usize> {
        if !self.was_interrupted {
            self.was_interrupted = true;
            return Err(ErrorKind::Interrupted.into());
        }
        let mut left = b"xyz".as_slice().get(self.given..).unwrap_or(&[]);
        let taken = left.read(buf)?;
        self.given = self.given.saturating_add(taken);
        Ok(taken)
    }
}

#[test]
fn an_interrupted_read_is_tried_again(rt: HostRuntime) -> Result<(), Fail> {
    let mut file = Interrupted {
        given: 0,
        was_interrupted: false,
    };
    let mut piece = [0; 2];
    assert!(rt; read_some(&mut file, &mut piece).is_ok_and(|taken| taken == 2));
    assert!(rt; piece == *b"xy");
    Ok(())
}
