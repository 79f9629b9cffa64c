ghost use Rattle.std.specs.Prelude.{◌≤◌, length};
ghost use Rattle.uc_bytes.specs.declared.TheConstants.{FILE_LIMIT};
ghost use Rattle.intel_file.specs.Reading.{IsFileRead};

use crate::stream::IntelStream;
use intel_format::IntelHeader;
use std::alloc::Global;
use uc_bytes::FileAnswer;

/// An update of a file.
#[derive(Clone, Copy, Debug, PartialEq, Eq)]
pub struct IntelUpdate {
    /// Where it begins, in bytes from the file's begin.
    pub start: u64,
    /// Its length in bytes: header, data and table.
    pub len: u64,
    pub header: IntelHeader,
    /// How many pairs its table has.
    pub pairs: u32,
}

/// The updates of a file, or the first fault: where the first update begins that fails a check, and the first check
/// that it fails. The file has at most 67,108,864 bytes.
pub fn read_intel(alloc: Global, bytes: &[u8]) -> Result<Vec<IntelUpdate>, FileAnswer>
    requires { length bytes.now ≤ FILE_LIMIT }
    ensures { IsFileRead bytes.now result }
{
    let mut stream = IntelStream::new(alloc);
    match stream.feed(bytes) {
        Ok(()) => stream.finish(),
        Err(answer) => Err(answer),
    }
}
