//! A file of either vendor that comes in pieces, and the rows of its entries.
ghost use Rattle.std.specs.Prelude.{◌≡◌, ◌+◌, ◌<◌, ◌≤◌, ◌++◌, ℕ, List, [], None, IfOk, length};
ghost use Rattle.uc_bytes.specs.declared.TheConstants.{FILE_LIMIT};
ghost use Rattle.file_rows.specs.FileRows.{HasFewPairs, IsFinished};

use crate::patch_reader::PatchReader;
use crate::rows::FileRows;
use crate::update_reader::UpdateReader;
use crate::updates::UpdateRows;
use amd_equiv::AMD_MAGIC;
use arrayvec::ArrayVec;
use std::alloc::Global;
use uc_bytes::{FileAnswer, FileCause, FileFault, Vendor, word_at};

/// A file of which pieces came. Its first four bytes tell whose it is: AMD's, where they are the magic of a container.
#[derive(Debug, Drop)]
pub struct FileReader {
    alloc: Global,
    /// Its first bytes, at most four.
    head: ArrayVec<u8, 4>,
    /// Whose it is, once that is known; the reader of the other vendor's files then means nothing.
    vendor: Option<Vendor>,
    updates: UpdateReader,
    patches: PatchReader,
    /// The fault that it has, whatever follows.
    fault: Option<FileFault>,
}

/// What a file of fewer than four bytes is: the empty one has no entries, any other a fault.
fn finish_head(alloc: Global, head: &[u8]) -> Result<FileRows, FileFault>
    ensures finished { length head.now < 4 → IsFinished head.now result }
    ensures few { IfOk result HasFewPairs }
{
    if head.is_empty() {
        Ok(FileRows::Updates(UpdateRows::new(alloc)))
    } else {
        Err(FileFault {
            offset: 0,
            cause: FileCause::Short,
        })
    }
}

impl FileReader {
    ghost use Rattle.file_rows.specs.FileReading.{Comes, Reads, IsUpdatesBegun, IsPatchesBegun, IsBegun, IsCome, IsFed, fed_of};

    /// A reader to which nothing came. It takes no memory.
    pub fn new(alloc: Global) -> FileReader
        ensures reads { Reads [] result }
        ensures fed { fed_of result ≡ 0 }
    {
        FileReader {
            alloc,
            head: ArrayVec::new(),
            vendor: None,
            updates: UpdateReader::new(alloc),
            patches: PatchReader::new(alloc),
            fault: None,
        }
    }

    /// How many bytes came, up to the piece with a fault that no further bytes undo.
    pub fn fed(&self) -> usize
        ensures { result ≡ fed_of self.now }
    {
        match self.vendor {
            None => self.head.len(),
            Some(vendor) => match vendor {
                Vendor::Intel => self.updates.fed(),
                Vendor::Amd => self.patches.fed(),
            },
        }
    }

    /// Reads an Intel file from its first four bytes on.
    fn begin_updates(&mut self, rest: &[u8]) -> Result<(), FileAnswer>
        requires { length self.old.head.items + length rest.now ≤ FILE_LIMIT }
        ensures head { self.new.head ≡ self.old.head }
        ensures fault { self.new.fault ≡ self.old.fault }
        ensures fed { fed_of self.new ≤ length self.old.head.items + length rest.now }
        ensures begun { IsUpdatesBegun (self.old.head.items ++ rest.now) self.new.vendor self.new.updates result }
    {
        self.updates = UpdateReader::new(self.alloc);
        self.vendor = Some(Vendor::Intel);
        match self.updates.feed(self.head.as_slice()) {
            Ok(()) => self.updates.feed(rest),
            Err(answer) => Err(answer),
        }
    }

    /// Reads an AMD file from its first four bytes on.
    fn begin_patches(&mut self, rest: &[u8]) -> Result<(), FileAnswer>
        requires { length self.old.head.items + length rest.now ≤ FILE_LIMIT }
        ensures head { self.new.head ≡ self.old.head }
        ensures fault { self.new.fault ≡ self.old.fault }
        ensures fed { fed_of self.new ≤ length self.old.head.items + length rest.now }
        ensures begun { IsPatchesBegun (self.old.head.items ++ rest.now) self.new.vendor self.new.patches result }
    {
        self.patches = PatchReader::new(self.alloc);
        self.vendor = Some(Vendor::Amd);
        match self.patches.feed(self.head.as_slice()) {
            Ok(()) => self.patches.feed(rest),
            Err(answer) => Err(answer),
        }
    }

    /// Reads a file from its first four bytes on, which tell whose it is.
    fn begin(&mut self, rest: &[u8]) -> Result<(), FileAnswer>
        requires four { 4 ≤ length self.old.head.items }
        requires short { length self.old.head.items + length rest.now ≤ FILE_LIMIT }
        ensures head { self.new.head ≡ self.old.head }
        ensures fault { self.new.fault ≡ self.old.fault }
        ensures fed { fed_of self.new ≤ length self.old.head.items + length rest.now }
        ensures begun { IsBegun (self.old.head.items ++ rest.now) self.new result }
    {
        if word_at(self.head.as_slice(), 0) == AMD_MAGIC {
            self.begin_patches(rest)
        } else {
            self.begin_updates(rest)
        }
    }

    /// Takes a piece while it is not known whose the file is.
    fn take_head(&mut self, piece: &[u8]) -> Result<(), FileAnswer>
        requires unknown { self.old.vendor ≡ None }
        requires short { fed_of self.old + length piece.now ≤ FILE_LIMIT }
        ensures fault { self.new.fault ≡ self.old.fault }
        ensures fed { fed_of self.new ≤ fed_of self.old + length piece.now }
        ensures come { (bytes : List ℕ) → Comes bytes self.old → IsCome bytes piece.now self.new result }
    {
        let held = self.head.len();
        let len = piece.len().min(4 - held);
        self.head.try_extend_from_slice(&piece[..len]).unwrap();
        if self.head.len() < 4 {
            return Ok(());
        }
        match self.begin(&piece[len..]) {
            Ok(()) => Ok(()),
            Err(FileAnswer::Fault(fault)) => Err(FileAnswer::Fault(fault)),
            Err(FileAnswer::NoMemory) => {
                self.head.truncate(held);
                self.vendor = None;
                Err(FileAnswer::NoMemory)
            }
        }
    }

    /// Takes a piece, where there is no fault yet.
    fn take_piece(&mut self, piece: &[u8]) -> Result<(), FileAnswer>
        requires { fed_of self.old + length piece.now ≤ FILE_LIMIT }
        ensures fault { self.new.fault ≡ self.old.fault }
        ensures fed { fed_of self.new ≤ fed_of self.old + length piece.now }
        ensures come { (bytes : List ℕ) → Comes bytes self.old → IsCome bytes piece.now self.new result }
    {
        match self.vendor {
            None => self.take_head(piece),
            Some(vendor) => match vendor {
                Vendor::Intel => self.updates.feed(piece),
                Vendor::Amd => self.patches.feed(piece),
            },
        }
    }

    /// Takes the next bytes of the file, which has at most 67,108,864. It answers a fault exactly where the bytes have
    /// one that no further bytes undo, and later calls answer it again; without memory all is as before.
    pub fn feed(&mut self, piece: &[u8]) -> Result<(), FileAnswer>
        requires { fed_of self.old + length piece.now ≤ FILE_LIMIT }
        ensures fed { fed_of self.new ≤ fed_of self.old + length piece.now }
        ensures reads { (bytes : List ℕ) → Reads bytes self.old → IsFed bytes piece.now self.new result }
    {
        if let Some(fault) = self.fault {
            return Err(FileAnswer::Fault(fault));
        }
        match self.take_piece(piece) {
            Err(FileAnswer::Fault(fault)) => {
                self.fault = Some(fault);
                Err(FileAnswer::Fault(fault))
            }
            answer => answer,
        }
    }

    /// The rows of the file, of which no more bytes come, or its first fault.
    pub fn finish(self) -> Result<FileRows, FileFault>
        ensures finished { (bytes : List ℕ) → Reads bytes self → IsFinished bytes result }
        ensures few { IfOk result HasFewPairs }
    {
        if let Some(fault) = self.fault {
            return Err(fault);
        }
        match self.vendor {
            None => finish_head(self.alloc, self.head.as_slice()),
            Some(vendor) => match vendor {
                Vendor::Intel => match self.updates.finish() {
                    Ok(rows) => Ok(FileRows::Updates(rows)),
                    Err(fault) => Err(fault),
                },
                Vendor::Amd => match self.patches.finish() {
                    Ok(rows) => Ok(FileRows::Patches(rows)),
                    Err(fault) => Err(fault),
                },
            },
        }
    }
}
