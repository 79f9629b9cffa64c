//! An Intel file that comes in pieces, and the list of its updates.
ghost use Rattle.std.specs.Prelude.{◌≡◌, ◌+◌, ◌≤◌, ℕ, List, [], ◌++◌, length, OnOk, vec_len, take, IfErr};
ghost use Rattle.uc_bytes.specs.declared.TheConstants.{FILE_LIMIT};
ghost use Rattle.uc_bytes.specs.declared.causes.FileAnswer.TheVariants.{NoMemory as NoMemoryAnswer};
ghost use Rattle.intel_format.specs.File.{FileUpdate};
ghost use Rattle.intel_file.specs.Reading.{listed};
ghost use Rattle.intel_file.specs.Walk.{IsTaken, header_in};
ghost use Rattle.intel_file.specs.Stream.{Lists, IsWalked};

use crate::file::IntelUpdate;
use crate::walk::{IntelWalk, What};
use intel_format::IntelHeader;
use std::alloc::Global;
use uc_bytes::{FileAnswer, FileFault};

/// A file of which pieces came.
#[derive(Debug, Drop)]
pub struct IntelStream {
    walk: IntelWalk,
    /// The updates that came whole.
    updates: Vec<IntelUpdate>,
    /// The fault that the file has, whatever follows.
    fault: Option<FileFault>,
    /// How many bytes came, up to the piece with that fault.
    fed: u64,
}

/// Lists the update that came whole, if one did, of which the header is given. The fault is the one that bytes brought.
fn list_update(
    updates: &mut Vec<IntelUpdate>,
    header: &IntelHeader,
    what: What,
) -> Result<Option<FileFault>, FileAnswer>
    ensures kept { take (vec_len updates.old) updates.new.items ≡ updates.old.items }
    ensures listed { (walk : IntelWalk) (bytes : List ℕ) (us : List FileUpdate) (pairs : List (ℕ × ℕ))
        → header_in walk ≡ header.now → IsTaken bytes us pairs walk what → updates.old.items ≡ listed 0 us
        → IsWalked bytes walk updates.new.items result }
    ensures full { IfErr result (λ answer. answer ≡ NoMemoryAnswer) }
{
    match what {
        What::More => Ok(None),
        What::Fault(fault) => Ok(Some(fault)),
        What::Update(ended) => {
            updates.push(IntelUpdate {
                start: u64::from(ended.start),
                len: u64::from(ended.len),
                header: *header,
                pairs: ended.pairs,
            })?;
            Ok(None)
        }
    }
}

/// Lists the updates that end in a piece, or tells the fault that it brings. Where memory runs out, some are listed.
fn walk_piece(
    walk: &mut IntelWalk,
    updates: &mut Vec<IntelUpdate>,
    piece: &[u8],
) -> Result<Option<FileFault>, FileAnswer>
    ensures kept { take (vec_len updates.old) updates.new.items ≡ updates.old.items }
    ensures walked { (bytes : List ℕ) → Lists walk.old updates.old.items bytes
        → length bytes + length piece.now ≤ FILE_LIMIT
        → IsWalked (bytes ++ piece.now) walk.new updates.new.items result }
    ensures full { IfErr result (λ answer. answer ≡ NoMemoryAnswer) }
{
    let mut at = 0;
    'walk: while at < piece.len() {
        let took = walk.take(&piece[at..]);
        at += took.len;
        match list_update(updates, walk.header(), took.what) {
            Ok(None) => {}
            Ok(Some(fault)) => return Ok(Some(fault)),
            Err(answer) => return Err(answer),
        }
    }
    Ok(None)
}

impl IntelStream {
    ghost use Rattle.intel_file.specs.Reading.{IsFileRead};
    ghost use Rattle.intel_file.specs.Stream.{Stands, IsFed, fed_of};

    /// A stream to which nothing came.
    pub fn new(alloc: Global) -> IntelStream
        ensures stands { Stands [] result }
        ensures fed { fed_of result ≡ 0 }
    {
        IntelStream {
            walk: IntelWalk::new(),
            updates: Vec::new(alloc),
            fault: None,
            fed: 0,
        }
    }

    /// How many bytes came, up to the piece with a fault that no further bytes undo.
    pub fn fed(&self) -> u64
        ensures { result ≡ fed_of self.now }
    {
        self.fed
    }

    /// Takes the next bytes of the file, which has at most 67,108,864. A fault is the file's whatever follows, and
    /// later calls answer it again; without memory the stream is as before.
    pub fn feed(&mut self, piece: &[u8]) -> Result<(), FileAnswer>
        requires { fed_of self.old + length piece.now ≤ FILE_LIMIT }
        ensures fed { OnOk result (fed_of self.new ≡ fed_of self.old + length piece.now) }
        ensures stands { (bytes : List ℕ) → Stands bytes self.old → IsFed bytes piece.now self.new result }
    {
        if let Some(fault) = self.fault {
            return Err(FileAnswer::Fault(fault));
        }
        let before = self.walk.copy();
        let count = self.updates.len();
        match walk_piece(&mut self.walk, &mut self.updates, piece) {
            Ok(None) => {
                self.fed += piece.len() as u64;
                Ok(())
            }
            Ok(Some(fault)) => {
                self.fault = Some(fault);
                Err(FileAnswer::Fault(fault))
            }
            Err(answer) => {
                self.walk = before;
                self.updates.truncate(count);
                Err(answer)
            }
        }
    }

    /// The updates of the file, of which no more bytes come, or its first fault.
    pub fn finish(self) -> Result<Vec<IntelUpdate>, FileAnswer>
        ensures { (bytes : List ℕ) → Stands bytes self → IsFileRead bytes result }
    {
        if let Some(fault) = self.fault {
            return Err(FileAnswer::Fault(fault));
        }
        match self.walk.end() {
            Some(fault) => Err(FileAnswer::Fault(fault)),
            None => Ok(self.updates),
        }
    }
}
