//! Files of which a call fails.
use super::*;
use update_samples::large_update;

/// A load of a large file, twice.
const TWICE: &str = "ucode-script 1\nboot\nload r.bin\n*48\nend\nload r.bin\n*48\nend\n";

/// So many updates of 2,048 bytes whose data are zeros, of which the last has a version that is not known.
fn faulty_at_the_end(alloc: Global, updates: usize) -> Result<Vec<u8>, AllocError> {
    let mut bytes = Vec::new(alloc);
    for _ in 1..updates {
        let update = update_samples::update_without_sizes(alloc, 0xf0)?;
        bytes.extend_from_slice(update.as_slice())?;
    }
    update_samples::push_words(&mut bytes, &[2])?;
    let end = bytes.len().saturating_add(2_044);
    bytes.resize(end, 0)?;
    Ok(bytes)
}

/// The files of these tests, of which a call fails.
fn failing_at(alloc: Global, call: u32) -> Result<MemFiles, Fail> {
    let mut files = files_of(alloc, TWICE)?;
    files.put("r.bin", large_update(alloc)?.as_slice())?;
    files.put("bad.bin", faulty_at_the_end(alloc, 1)?.as_slice())?;
    files.put("late.bin", faulty_at_the_end(alloc, 33)?.as_slice())?;
    files.fail_at(call)?;
    Ok(files)
}

#[test]
fn the_first_file_of_which_a_call_fails_is_named(rt: HostRuntime) -> Result<(), Fail> {
    let alloc = rt.alloc();
    // A topology is read by one call. An update file takes three: it is opened, one piece is taken, and its end is
    // found. The fault of `bad.bin` shows in its first piece, that of `late.bin` in its second.
    let table = [
        ("select t1 a.bin r.bin", 1, "error read t1\n"),
        ("select t1 a.bin r.bin", 2, "error read a.bin\n"),
        ("select t1 a.bin r.bin", 3, "error read a.bin\n"),
        ("select t1 a.bin r.bin", 4, "error read a.bin\n"),
        ("select t1 a.bin r.bin", 5, "error read r.bin\n"),
        ("select t1 a.bin r.bin", 6, "error read r.bin\n"),
        ("select t1 a.bin r.bin", 7, "error read r.bin\n"),
        ("select t1 a.bin r.bin", 8, "error read r.bin\n"),
        ("list bad.bin", 3, "error read bad.bin\n"),
        ("list late.bin", 4, "error read late.bin\n"),
        ("play t2 s", 1, "error read t2\n"),
        ("play t2 s", 2, "error read s\n"),
    ];
    for (line, call, text) in &table {
        let mut files = failing_at(alloc, *call)?;
        let mut out = MemSink::new(alloc, ROOM)?;
        let status = run(alloc, line, &mut files, &mut out)?;
        assert_eq!(rt; status, Status::ReadFault, "{line}, {call}");
        assert_eq!(rt; out.bytes(), text.as_bytes(), "{line}, {call}");
    }
    Ok(())
}

#[test]
fn a_session_ends_with_the_first_file_that_is_not_read(rt: HostRuntime) -> Result<(), Fail> {
    let alloc = rt.alloc();
    // The file of a load takes four calls: it is opened, two pieces are taken, and its end is found.
    for call in 3..12 {
        let mut files = failing_at(alloc, call)?;
        let mut out = MemSink::new(alloc, ROOM)?;
        let status = run(alloc, "play t2 s", &mut files, &mut out)?;
        let (wanted, end) = match call {
            3..=6 => (
                Status::ReadFault,
                "answer done\ncommand 2 load\nanswer read-fault r.bin\n",
            ),
            7..=10 => (
                Status::ReadFault,
                "answer done\ncommand 3 load\nanswer read-fault r.bin\n",
            ),
            _ => (
                Status::Short,
                "answer done\ncommand 3 load\nanswer not-found\n",
            ),
        };
        assert_eq!(rt; status, wanted, "{call}");
        assert!(rt; out.bytes().ends_with(end.as_bytes()), "{call}");
    }
    Ok(())
}
