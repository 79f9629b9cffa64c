use status_rule::Status;
use std::alloc::{AllocError, Global};
use std::test::Fail;
use uc_bytes::Text;
use uc_io::{MemFiles, MemSink};
use update_samples::{ONE_THREAD, SMALL, TWO_THREADS, push_update};

mod ends;
mod held;
mod patience;
mod reads;
mod words;
mod writes;

/// Room for each text of these tests.
const ROOM: usize = 4_096;

/// The words that stand between blanks.
fn words_of(alloc: Global, line: &str) -> Result<Vec<Text>, AllocError> {
    let mut words = Vec::new(alloc);
    for word in line.split_whitespace() {
        words.push(Text::new(String::from_str(alloc, word)?))?;
    }
    Ok(words)
}

/// Runs `ucode` on words that stand between blanks.
fn run(
    alloc: Global,
    line: &str,
    files: &mut MemFiles,
    out: &mut MemSink,
) -> Result<Status, AllocError> {
    let words = words_of(alloc, line)?;
    Ok(uc_cli::run_tool(alloc, words.as_slice(), files, out))
}

/// An update as `a.bin`, one core with a thread as `t1`, one with two as `t2`, and a script as `s`.
fn files_of(alloc: Global, script: &str) -> Result<MemFiles, Fail> {
    let mut update = Vec::new(alloc);
    push_update(&mut update, &SMALL)?;
    let mut files = MemFiles::new(alloc);
    files.put("a.bin", update.as_slice())?;
    files.put("t1", ONE_THREAD.as_bytes())?;
    files.put("t2", TWO_THREADS.as_bytes())?;
    files.put("s", script.as_bytes())?;
    Ok(files)
}
