//! Sinks that fail at a write.
use super::*;
use uc_live::{LiveRun, OpenGate};

/// A schedule of two threads of which one comes to an ordinary attempt while their core is written.
const ATTEMPT: &str =
    "ucode-script 1\nboot\nload a.bin\ns0 s1 s0 s1 s1 s0 s0 s0 r1 s0 s0 s0 s0 s1 s1 s1 s1 s0\nend\n";

/// A load that no order of threads changes.
const PATIENT: &str = "ucode-script 1\npatience 4294967295\nboot\nload a.bin\nend\n";

/// Whether these bytes are so many whole lines, which a text begins with.
fn are_first_lines(bytes: &[u8], text: &[u8], lines: u32) -> bool {
    let mut found = 0u32;
    for byte in bytes {
        if *byte == b'\n' {
            found = found.saturating_add(1);
        }
    }
    found == lines && (bytes.is_empty() || bytes.ends_with(b"\n")) && text.starts_with(bytes)
}

/// Whether a text of so many lines is written by a write for each line, and one that fails leaves the lines before it.
fn each_line_is_one_write(alloc: Global, line: &str, lines: u16) -> Result<bool, Fail> {
    let mut files = files_of(alloc, ATTEMPT)?;
    let mut whole = MemSink::new(alloc, ROOM)?;
    let wanted = run(alloc, line, &mut files, &mut whole)?;
    for before in 0..u32::from(lines) {
        let mut out = MemSink::new(alloc, ROOM)?;
        out.fail_at(before + 1);
        let status = run(alloc, line, &mut files, &mut out)?;
        if status != Status::WriteFault || !are_first_lines(out.bytes(), whole.bytes(), before) {
            return Ok(false);
        }
    }
    let mut out = MemSink::new(alloc, ROOM)?;
    out.fail_at(u32::from(lines) + 1);
    let status = run(alloc, line, &mut files, &mut out)?;
    Ok(status == wanted && out.bytes() == whole.bytes())
}

#[test]
fn a_write_that_fails_leaves_the_lines_before(rt: HostRuntime) -> Result<(), Fail> {
    let table = [
        ("list a.bin a.bin", 4),
        ("show a.bin 0", 3),
        ("select t1 a.bin", 1),
        ("play t2 s", 28),
        ("gen 1", 1),
        ("list none.bin", 1),
        ("list s", 1),
        ("list", 1),
    ];
    for (line, lines) in &table {
        assert!(rt; each_line_is_one_write(rt.alloc(), line, *lines)?, "{line}");
    }
    Ok(())
}

#[test]
fn a_write_that_fails_leaves_the_lines_of_a_live_session_before(
    rt: HostRuntime,
) -> Result<(), Fail> {
    let alloc = rt.alloc();
    let whole = "command 1 boot
up 0 rev 0x000000b4
answer done
command 2 load
offer core 0 entry 0 len 64 rev 0x000000f0
cpu 0 updated
core 0 rev 0x000000f0
answer done
";
    let words = words_of(alloc, "t1 s")?;
    for before in 0..9 {
        let mut files = files_of(alloc, PATIENT)?;
        let mut out = MemSink::new(alloc, ROOM)?;
        out.fail_at(before + 1);
        let mut live = LiveRun::new(&rt, alloc, &OpenGate);
        let found = live_cli::run_live(alloc, words.as_slice(), &mut files, &mut out, &mut live);
        let wanted = if before < 8 {
            Status::WriteFault
        } else {
            Status::Done
        };
        assert_eq!(rt; found, wanted, "{before}");
        let lines = before.min(8);
        assert!(rt;
            are_first_lines(out.bytes(), whole.as_bytes(), lines),
            "{before}"
        );
    }
    Ok(())
}
