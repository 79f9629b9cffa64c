ghost use Rattle.std.specs.Prelude.{◌≤◌, length};
ghost use Rattle.uc_bytes.specs.declared.TheConstants.{FILE_LIMIT};
ghost use Rattle.amd_file.specs.Reading.{IsFileRead};

use crate::container::AmdContainer;
use crate::stream::AmdStream;
use std::alloc::Global;
use uc_bytes::FileAnswer;

/// The containers of a file that have a patch, or the first fault: where the container begins whose head or table
/// fails a check, or the section that fails one, and the first check that it fails. The file has at most 67,108,864
/// bytes. Linux 6.7, `arch/x86/kernel/cpu/microcode/amd.c`, load_microcode_amd.
pub fn read_amd(alloc: Global, bytes: &[u8]) -> Result<Vec<AmdContainer>, FileAnswer>
    requires { length bytes.now ≤ FILE_LIMIT }
    ensures { IsFileRead bytes.now result }
{
    let mut stream = AmdStream::new(alloc);
    match stream.feed(bytes) {
        Ok(()) => stream.finish(),
        Err(answer) => Err(answer),
    }
}
