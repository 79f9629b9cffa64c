//! The containers of a file that comes in pieces.
ghost use Rattle.std.specs.Prelude.{◌≡◌, ◌+◌, ◌≤◌, length};
ghost use Rattle.uc_bytes.specs.declared.TheConstants.{FILE_LIMIT};

use crate::container::AmdContainer;
use crate::listing::{Listing, containers_of};
use crate::parser::AmdParser;
use std::alloc::{AllocError, Global};
use uc_bytes::FileAnswer;

/// A file of which pieces came so far. It keeps the patches that came whole, and no bytes but those that `AmdParser`
/// keeps.
#[derive(Drop)]
pub struct AmdStream {
    alloc: Global,
    parser: AmdParser,
    listing: Listing,
}

impl AmdStream {
    ghost use Rattle.std.specs.Prelude.{ℕ, List, [], ◌++◌, take, vec_len, OnOk};
    ghost use Rattle.amd_file.specs.Reading.{IsFileRead};
    ghost use Rattle.amd_file.specs.Stream.{Stands, IsFed, fed_of};

    /// A stream to which nothing came.
    pub fn new(alloc: Global) -> AmdStream
        ensures stands { Stands [] result }
        ensures fed { fed_of result ≡ 0 }
    {
        AmdStream {
            alloc,
            parser: AmdParser::new(),
            listing: Listing::new(alloc),
        }
    }

    /// How many bytes came.
    pub fn fed(&self) -> usize
        ensures { result ≡ fed_of self.now }
    {
        self.parser.fed()
    }

    /// Takes a piece, unless memory runs out within it.
    fn take_in(&mut self, piece: &[u8]) -> Result<(), AllocError>
        requires { fed_of self.old + length piece.now ≤ FILE_LIMIT }
        ensures fed { OnOk result (fed_of self.new ≡ fed_of self.old + length piece.now) }
        ensures stands { OnOk result ((bytes : List ℕ) → Stands bytes self.old → Stands (bytes ++ piece.now) self.new) }
        ensures before { take (vec_len self.old.listing.patches) self.new.listing.patches.items
            ≡ self.old.listing.patches.items }
    {
        let mut at = 0;
        'piece: while at < piece.len() {
            let taken = self.parser.take(&piece[at..]);
            self.listing.add(taken.part)?;
            at += taken.len;
        }
        Ok(())
    }

    /// Takes the next bytes of the file, which has at most 67,108,864. A fault is the file's whatever follows, and
    /// later calls answer it again; without memory the stream is as before.
    pub fn feed(&mut self, piece: &[u8]) -> Result<(), FileAnswer>
        requires { fed_of self.old + length piece.now ≤ FILE_LIMIT }
        ensures fed { OnOk result (fed_of self.new ≡ fed_of self.old + length piece.now) }
        ensures stands { (bytes : List ℕ) → Stands bytes self.old → IsFed bytes piece.now self.new result }
    {
        let parser = self.parser.copy();
        let count = self.listing.patches.len();
        let head = self.listing.head;
        let fresh = self.listing.fresh;
        match self.take_in(piece) {
            Ok(()) => match self.parser.settled() {
                Some(fault) => Err(FileAnswer::Fault(fault)),
                None => Ok(()),
            },
            Err(AllocError) => {
                self.parser = parser;
                self.listing.patches.truncate(count);
                self.listing.head = head;
                self.listing.fresh = fresh;
                Err(FileAnswer::NoMemory)
            }
        }
    }

    /// The containers of the file that have a patch, of which file no more bytes come; or its first fault.
    pub fn finish(self) -> Result<Vec<AmdContainer>, FileAnswer>
        ensures { (bytes : List ℕ) → Stands bytes self → IsFileRead bytes result }
    {
        if let Some(fault) = self.parser.end() {
            return Err(FileAnswer::Fault(fault));
        }
        match containers_of(self.alloc, self.listing.patches.as_slice()) {
            Ok(containers) => Ok(containers),
            Err(AllocError) => Err(FileAnswer::NoMemory),
        }
    }
}
