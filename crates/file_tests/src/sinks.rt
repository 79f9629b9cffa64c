//! Sinks that run out of room or fail at a write, and output that is gathered.
use std::alloc::{AllocError, Global};
use std::io;
use std::io::{ErrorKind, Write};
use std::test::Fail;
use uc_bytes::{put_word, word_at};
use uc_io::{MemSink, OutSink, Sink, write_line};

#[test]
fn a_sink_in_memory_cuts_what_does_not_fit(rt: HostRuntime) -> Result<(), Fail> {
    let mut sink = MemSink::new(rt.alloc(), 6)?;
    assert!(rt; write_line(&mut sink, &[b"on", b"e\n"]).is_ok());
    assert!(rt; write_line(&mut sink, &[b"two\n"]).is_err());
    assert!(rt; sink.write(b"").is_ok());
    assert_eq!(rt; sink.bytes(), b"one\ntw".as_slice());
    Ok(())
}

#[test]
fn a_sink_in_memory_fails_at_the_write_that_is_named(rt: HostRuntime) -> Result<(), Fail> {
    let table = [(0, "abc"), (1, "bc"), (2, "ac"), (3, "ab"), (4, "abc")];
    for (write, wanted) in &table {
        let mut sink = MemSink::new(rt.alloc(), 3)?;
        sink.fail_at(3 - write.min(&3));
        sink.fail_at(*write);
        for piece in [b"a", b"b", b"c"] {
            let _wrote = sink.write(piece);
        }
        assert_eq!(rt; sink.bytes(), wanted.as_bytes(), "at {write}");
    }
    Ok(())
}

/// Bytes that repeat after a prime number of them.
fn pattern(alloc: Global, length: u32) -> Result<Vec<u8>, AllocError> {
    (0..length).map(|i| (i % 251) as u8).collect(alloc)
}

/// Holds bytes, of which it takes at most 1,000 at a time. Its first call is interrupted, and with 70,001 bytes in it
/// it takes nothing more, until it was asked to twice.
#[derive(Drop)]
struct Narrow {
    held: Vec<u8>,
    was_interrupted: bool,
    refusals: u32,
}

impl Write for Narrow {
    fn write(&mut self, buf: &[u8]) -> io::Result<usize> {
        if !self.was_interrupted {
            self.was_interrupted = true;
            return Err(ErrorKind::Interrupted.into());
        }
        let mut taken = buf.len().min(1_000);
        if self.refusals < 2 {
            taken = taken.min(70_001usize.saturating_sub(self.held.len()));
            if taken == 0 {
                self.refusals += 1;
            }
        }
        self.held.extend_from_slice(&buf[..taken])?;
        Ok(taken)
    }

    fn flush(&mut self) -> io::Result<()> {
        Ok(())
    }
}

/// Two blocks were taken when the second could not all be handed on.
#[test]
fn what_is_not_written_is_held_and_tried_again(rt: HostRuntime) -> Result<(), Fail> {
    let all = pattern(rt.alloc(), 200_000)?;
    let mut to = Narrow {
        held: Vec::new(rt.alloc()),
        was_interrupted: false,
        refusals: 0,
    };
    let mut out = OutSink::new(&mut to);
    assert!(rt; out.write(&all).is_err());
    assert!(rt; out.finish().is_err());
    assert!(rt; out.write(&all[131_072.min(all.len())..]).is_ok());
    assert!(rt; out.finish().is_ok());
    assert!(rt; to.held == all);
    Ok(())
}

#[test]
fn standard_output_takes_a_line(rt: HostRuntime) -> Result<(), Fail> {
    let mut out = OutSink::new(io::writer(&rt));
    assert!(rt; write_line(&mut out, &[b"answer ", b"done\n"]).is_ok());
    assert!(rt; out.write(b"").is_ok());
    assert!(rt; out.finish().is_ok());
    assert!(rt; out.finish().is_ok());
    Ok(())
}

#[test]
fn bytes_are_written_in_blocks(rt: HostRuntime) -> Result<(), Fail> {
    let all = pattern(rt.alloc(), 265_536)?;
    let table = [(0, 0), (65_535, 0), (65_536, 65_536), (265_536, 262_144)];
    for (end, wanted) in &table {
        let mut written = Vec::new(rt.alloc());
        let mut out = OutSink::new(&mut written);
        let (front, behind) = all.as_slice().split_at(*end.min(&all.len()));
        assert!(rt; out.write(front).is_ok());
        assert!(rt; out.write(b"").is_ok());
        drop(out);
        assert_eq!(rt; written.len(), *wanted);
        let mut whole = Vec::new(rt.alloc());
        let mut out = OutSink::new(&mut whole);
        assert!(rt; out.write(front).is_ok());
        assert!(rt; out.write(behind).is_ok());
        assert!(rt; out.finish().is_ok());
        drop(out);
        assert!(rt; whole == all);
    }
    Ok(())
}

#[test]
fn a_word_is_put_in_its_place_alone(rt: HostRuntime) -> Result<(), Fail> {
    let mut bytes = [0xa5; 9];
    put_word(&mut bytes, 3, 0x1234_5678);
    assert_eq!(rt;
        bytes,
        [0xa5, 0xa5, 0xa5, 0x78, 0x56, 0x34, 0x12, 0xa5, 0xa5]
    );
    assert_eq!(rt; word_at(&bytes, 3), 0x1234_5678);
    put_word(&mut bytes, 5, u32::MAX);
    assert_eq!(rt; bytes, [0xa5, 0xa5, 0xa5, 0x78, 0x56, 255, 255, 255, 255]);
    Ok(())
}
