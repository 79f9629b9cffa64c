//! The program `ucode_live`: it hands the words of its command line, the host's files, standard output and a live
//! rendezvous with an open gate to `run_live`, hands on what standard output still holds, says on standard error why a
//! run could not do what it was asked, and ends with the exit status that comes of it.
#![tactic(auto)]

use live_cli::{PromptOut, Status, run_live};
use main_parts::{Speaker, words};
use status_rule::after_write;
use std::io;
use std::process::ExitCode;
use uc_bytes::NoMemory;
use uc_io::HostFiles;
use uc_live::{LiveRun, OpenGate};

/// What the program says of itself.
const SPEAKER: Speaker<'static> = Speaker {
    name: "ucode_live",
    forms: "ucode_live TOPOLOGY SCRIPT",
};

fn main(rt: HostRuntime) -> ExitCode {
    let alloc = rt.alloc();
    let mut files = HostFiles::new(&rt);
    let status = match words(&rt, alloc) {
        Ok(words) => {
            let mut out = PromptOut::new(io::writer(&rt));
            let mut live = LiveRun::new(&rt, alloc, &OpenGate);
            let status = run_live(alloc, words.as_slice(), &mut files, &mut out, &mut live);
            after_write(status, out.finish())
        }
        Err(NoMemory) => Status::NoMemory,
    };
    SPEAKER.remark(&rt.stderr(), status, files.failure());
    ExitCode::from(status.code())
}
