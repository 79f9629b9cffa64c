//! Ends of a run that no files lead to.
use super::*;
use uc_bytes::{FileCause, FileFault};
use uc_cli::{Refusal, refuse};

#[test]
fn want_of_memory_has_its_line_and_its_number(rt: HostRuntime) -> Result<(), Fail> {
    let mut out = MemSink::new(rt.alloc(), ROOM)?;
    assert_eq!(rt; refuse(&mut out, Refusal::NoMemory), Status::NoMemory);
    assert_eq!(rt; out.bytes(), "error memory\n".as_bytes());
    assert_eq!(rt; Status::NoMemory.code(), 7);
    Ok(())
}

#[test]
fn causes_that_no_file_gives_have_their_text(rt: HostRuntime) -> Result<(), Fail> {
    let alloc = rt.alloc();
    let name = Text::new(String::from_str(alloc, "f")?);
    let table = [
        (FileCause::Magic, "error file f at 7 magic\n"),
        (
            FileCause::EntrySum(4_294_967_295),
            "error file f at 7 entry-sum 4294967295\n",
        ),
    ];
    for (cause, text) in &table {
        let mut out = MemSink::new(alloc, ROOM)?;
        let fault = FileFault {
            offset: 7,
            cause: *cause,
        };
        let status = refuse(&mut out, Refusal::BadFile(&name, fault));
        assert_eq!(rt; status, Status::BadInput);
        assert_eq!(rt; out.bytes(), text.as_bytes());
    }
    Ok(())
}
