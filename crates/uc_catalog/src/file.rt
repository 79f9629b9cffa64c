//! What is kept of a file.
ghost use Rattle.std.specs.Prelude.{◌≤◌, length};
ghost use Rattle.uc_bytes.specs.declared.TheConstants.{FILE_LIMIT};
ghost use Rattle.uc_catalog.specs.Files.{IsFileKept};

use file_rows::{FileReader, FileRows};
use std::alloc::Global;
use uc_bytes::FileAnswer;

/// A file.
#[derive(Debug, Drop)]
pub struct KeptFile {
    pub rows: FileRows,
    /// Its bytes; none, where they are not kept.
    pub bytes: Vec<u8>,
}

/// The entries of a file, or its first fault.
pub fn keep_rows(alloc: Global, file: &[u8]) -> Result<FileRows, FileAnswer>
    requires { length file.now ≤ FILE_LIMIT }
    ensures { IsFileKept file.now result }
{
    let mut reader = FileReader::new(alloc);
    match reader.feed(file) {
        Ok(()) => {}
        Err(answer) => return Err(answer),
    }
    match reader.finish() {
        Ok(rows) => Ok(rows),
        Err(fault) => Err(FileAnswer::Fault(fault)),
    }
}
