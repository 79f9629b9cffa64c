//! A walk over an Intel file that comes in pieces, an update at a time. It takes no memory, and keeps no bytes but
//! those that are short of a unit.
ghost use Rattle.std.specs.Prelude.{◌≡◌, ◌<◌, ◌≤◌, ◌+◌, ℕ, List, [], ◌++◌, length, take, option_to_list};
ghost use Rattle.uc_bytes.specs.declared.TheConstants.{FILE_LIMIT};
ghost use Rattle.intel_format.specs.File.{FileUpdate};
ghost use Rattle.intel_file.specs.Stage.{unit_of};

use crate::progress::{End, Progress, Stage, nothing_came};
use arrayvec::ArrayVec;
use intel_format::IntelHeader;
use uc_bytes::{FileCause, FileFault};

/// How many updates a file may have.
const MOST_UPDATES: u32 = 65_536;

/// An update that came whole: where it begins and how long it is, in bytes, and how many pairs its table has.
#[derive(Clone, Copy, Debug, PartialEq, Eq)]
pub struct Ended {
    pub start: u32,
    pub len: u32,
    pub pairs: u32,
}

/// What bytes brought.
#[derive(Clone, Copy, Debug, PartialEq, Eq)]
pub enum What {
    /// More bytes are to come.
    More,
    /// The update came whole; the walk tells its header.
    Update(Ended),
    /// The file has this fault, whatever follows.
    Fault(FileFault),
}

/// How many bytes were taken, the signature and flags of the table's entry that ended with them, if one did, and what
/// they brought.
#[derive(Clone, Copy, Debug, PartialEq, Eq)]
pub struct Took {
    pub len: usize,
    pub pair: Option<(u32, u32)>,
    pub what: What,
}

/// A file of which pieces came.
#[derive(Debug, Drop)]
pub struct IntelWalk {
    /// Where the update begins that is coming.
    start: u32,
    /// How many updates came before it.
    count: u32,
    /// How far it came, in whole units.
    progress: Progress,
    /// What came of the next unit.
    held: ArrayVec<u8, 64>,
    ghost short: { length held.items < unit_of progress.stage },
}

/// Holds bytes behind those that are held.
fn hold(held: &mut ArrayVec<u8, 64>, bytes: &[u8])
    requires { length held.old.items + length bytes.now ≤ 64 }
    ensures { held.new.items ≡ held.old.items ++ bytes.now }
{
    let _fits = held.try_extend_from_slice(bytes);
}

impl IntelWalk {
    ghost use Rattle.intel_file.specs.Walk.{Stands, Brought, IsTaken, IsEnded, header_in};

    /// A walk over a file of which nothing came.
    pub fn new() -> IntelWalk
        ensures { Stands result [] [] [] }
    {
        IntelWalk {
            start: 0,
            count: 0,
            progress: nothing_came(),
            held: ArrayVec::new(),
        }
    }

    /// Another walk that came as far.
    pub fn copy(&self) -> IntelWalk
        ensures { (bytes : List ℕ) (us : List FileUpdate) (pairs : List (ℕ × ℕ)) → Stands self.now bytes us pairs
            → Stands result bytes us pairs }
    {
        let mut held = ArrayVec::new();
        hold(&mut held, self.held.as_slice());
        IntelWalk {
            start: self.start,
            count: self.count,
            progress: self.progress,
            held,
        }
    }

    /// The header that came last.
    pub fn header(&self) -> &IntelHeader
        ensures { result.now ≡ header_in self.now }
    {
        &self.progress.header
    }

    /// The fault of the update that is coming.
    fn fault(&self, cause: FileCause) -> FileFault
        ensures { result ≡ record { offset = self.now.start; cause = cause } }
    {
        FileFault {
            offset: u64::from(self.start),
            cause,
        }
    }

    /// What a unit brought, which was the last of what came.
    fn brought(&mut self, end: End) -> What
        ensures { (bytes own : List ℕ) (us : List FileUpdate) (pairs : List (ℕ × ℕ))
            → Brought self.old bytes own us pairs end → IsTaken bytes us pairs self.new result }
    {
        match end {
            End::More => What::More,
            End::Fault(cause) => What::Fault(self.fault(cause)),
            End::Whole(pairs) => {
                let ended = Ended {
                    start: self.start,
                    len: self.progress.header.total_len(),
                    pairs,
                };
                self.start = self.start.wrapping_add(ended.len);
                self.count = self.count.wrapping_add(1);
                What::Update(ended)
            }
        }
    }

    /// Takes some of the bytes that come next: up to the end of a unit, or of the data.
    pub fn take(&mut self, rest: &[u8]) -> Took
        requires { 0 < length rest.now }
        ensures some { 0 < result.len }
        ensures within { result.len ≤ length rest.now }
        ensures took { (bytes : List ℕ) (us : List FileUpdate) (pairs : List (ℕ × ℕ)) → Stands self.old bytes us pairs
            → length bytes + length rest.now ≤ FILE_LIMIT
            → IsTaken (bytes ++ take result.len rest.now) us (pairs ++ option_to_list result.pair)
            self.new result.what }
    {
        if self.count >= MOST_UPDATES {
            return Took {
                len: 1,
                pair: None,
                what: What::Fault(self.fault(FileCause::TooMany)),
            };
        }
        let whole = self.progress.at_once(rest.len());
        if whole > 0 && self.held.is_empty() {
            let came = self.progress.come(&rest[..whole]);
            return Took {
                len: whole,
                pair: came.pair,
                what: self.brought(came.end),
            };
        }
        let unit = self.progress.unit_len();
        let len = rest.len().min(unit - self.held.len());
        hold(&mut self.held, &rest[..len]);
        if self.held.len() < unit {
            return Took {
                len,
                pair: None,
                what: What::More,
            };
        }
        let came = self.progress.come(self.held.as_slice());
        self.held.clear();
        Took {
            len,
            pair: came.pair,
            what: self.brought(came.end),
        }
    }

    /// What the file is if no more bytes come: the updates that came, or one of which bytes are missing.
    pub fn end(&self) -> Option<FileFault>
        ensures { (bytes : List ℕ) (us : List FileUpdate) (pairs : List (ℕ × ℕ)) → Stands self.now bytes us pairs
            → IsEnded bytes us result }
    {
        match self.progress.stage {
            Stage::Header if self.held.is_empty() => None,
            Stage::Header => Some(self.fault(FileCause::Short)),
            _ => Some(self.fault(FileCause::Truncated)),
        }
    }
}
