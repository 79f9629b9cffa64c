//! A file that is being read.
ghost use Rattle.std.specs.Prelude.{◌≡◌, ◌+◌, ◌≤◌, ◌++◌, ℕ, Bool, List, [], IsSome, IfOk, OnOk, OnErr, length, take, vec_len};
ghost use Rattle.uc_bytes.specs.declared.TheConstants.{FILE_LIMIT};
ghost use Rattle.file_rows.specs.Kept.{kept_bytes};
ghost use Rattle.file_rows.specs.FileReading.{fed_of};
ghost use Rattle.uc_catalog.specs.Coming.{ComesIn, ComesBy, IsFedIn, IsFinishedIn, HasFewPairsIn, fed_by};

use crate::file::KeptFile;
use file_rows::FileReader;
use std::alloc::{AllocError, Global};
use uc_bytes::{FileAnswer, FileFault};

/// A file of which pieces came.
#[derive(Debug, Drop)]
pub struct Coming {
    pub reader: FileReader,
    /// Its bytes that came; none, where they are not kept.
    pub bytes: Vec<u8>,
}

/// Puts a piece behind bytes, where these are kept.
fn keep_piece(bytes: &mut Vec<u8>, keeps: bool, piece: &[u8]) -> Result<(), AllocError>
    ensures ok { OnOk result (bytes.new.items ≡ bytes.old.items ++ kept_bytes keeps piece.now) }
    ensures err { OnErr result (bytes.new.items ≡ bytes.old.items) }
    ensures before { take (vec_len bytes.old) bytes.new.items ≡ bytes.old.items }
{
    if keeps {
        bytes.extend_from_slice(piece)?;
    }
    Ok(())
}

impl Coming {
    /// A file of which nothing came. It takes no memory.
    pub fn new(alloc: Global) -> Coming
        ensures comes { (keeps : Bool) → ComesIn keeps [] result }
        ensures fed { fed_of result.reader ≡ 0 }
    {
        Coming {
            reader: FileReader::new(alloc),
            bytes: Vec::new(alloc),
        }
    }

    /// Begins a file of which nothing came, where none is being read.
    pub fn begin(alloc: Global, coming: &mut Option<Coming>)
        ensures some { IsSome coming.new }
        ensures comes { (keeps : Bool) (bytes : List ℕ) → ComesBy keeps bytes coming.old
            → ComesBy keeps bytes coming.new }
        ensures fed { fed_by coming.new ≡ fed_by coming.old }
    {
        if coming.is_none() {
            *coming = Some(Coming::new(alloc));
        }
    }

    /// Takes the next bytes of the file, which has at most 67,108,864, and keeps them where it is to.
    pub fn feed(&mut self, keeps: bool, piece: &[u8]) -> Result<(), FileAnswer>
        requires { fed_of self.old.reader + length piece.now ≤ FILE_LIMIT }
        ensures fed { fed_of self.new.reader ≤ fed_of self.old.reader + length piece.now }
        ensures come { (bytes : List ℕ) → ComesIn keeps bytes self.old → IsFedIn keeps bytes piece.now self.new result }
    {
        let count = self.bytes.len();
        match keep_piece(&mut self.bytes, keeps, piece) {
            Ok(()) => {}
            Err(AllocError) => return Err(FileAnswer::NoMemory),
        }
        match self.reader.feed(piece) {
            Ok(()) => Ok(()),
            Err(FileAnswer::Fault(fault)) => Err(FileAnswer::Fault(fault)),
            Err(FileAnswer::NoMemory) => {
                self.bytes.truncate(count);
                Err(FileAnswer::NoMemory)
            }
        }
    }

    /// What is kept of the file, of which no more bytes come, or its first fault.
    pub fn finish(self) -> Result<KeptFile, FileFault>
        ensures finished { (keeps : Bool) (bytes : List ℕ) → ComesIn keeps bytes self
            → IsFinishedIn keeps bytes result }
        ensures few { IfOk result HasFewPairsIn }
    {
        match self.reader.finish() {
            Ok(rows) => Ok(KeptFile {
                rows,
                bytes: self.bytes,
            }),
            Err(fault) => Err(fault),
        }
    }

    /// The same of a file of which perhaps nothing came.
    pub fn finish_of(alloc: Global, coming: Option<Coming>) -> Result<KeptFile, FileFault>
        ensures finished { (keeps : Bool) (bytes : List ℕ) → ComesBy keeps bytes coming
            → IsFinishedIn keeps bytes result }
        ensures few { IfOk result HasFewPairsIn }
    {
        match coming {
            Some(coming) => coming.finish(),
            None => Coming::new(alloc).finish(),
        }
    }
}
