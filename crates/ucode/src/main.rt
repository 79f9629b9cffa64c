//! The program `ucode`: it hands the words of its command line, the host's files and standard output to `run_tool`,
//! hands on what standard output still holds, says on standard error why a run could not do what it was asked, and ends
//! with the exit status that comes of it.
#![tactic(auto)]

use main_parts::{Speaker, words};
use status_rule::after_write;
use std::io;
use std::process::ExitCode;
use uc_bytes::NoMemory;
use uc_cli::{Status, run_tool};
use uc_io::{HostFiles, OutSink};

/// What the program says of itself.
const SPEAKER: Speaker<'static> = Speaker {
    name: "ucode",
    forms: "ucode list FILE.. | show FILE NUMBER | select TOPOLOGY FILE.. | play TOPOLOGY SCRIPT | gen NUMBER",
};

fn main(rt: HostRuntime) -> ExitCode {
    let alloc = rt.alloc();
    let mut files = HostFiles::new(&rt);
    let status = match words(&rt, alloc) {
        Ok(words) => {
            let mut out = OutSink::new(io::writer(&rt));
            let status = run_tool(alloc, words.as_slice(), &mut files, &mut out);
            after_write(status, out.finish())
        }
        Err(NoMemory) => Status::NoMemory,
    };
    SPEAKER.remark(&rt.stderr(), status, files.failure());
    ExitCode::from(status.code())
}
