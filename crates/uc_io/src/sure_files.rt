//! Files in memory that never fail.
ghost use Rattle.std.specs.Prelude.{◌≡◌, [], OnOk, OnErr, None};
ghost use Rattle.uc_io.specs.Putting.{Puts};

use crate::contents::Contents;
use crate::files::{Files, OpenAnswer, ReadAnswer};
use crate::opened::Opened;
use crate::pieces::{PieceFailed, Pieces};
use std::alloc::Global;
use uc_bytes::NoMemory;

/// Files in memory, each put under its name. They tell what they hold, and no call of them fails: a name that was not
/// put holds no bytes, and is read as such.
#[derive(Drop)]
pub struct SureFiles {
    contents: Contents,
    opened: Opened,
}

impl SureFiles {
    ghost use Rattle.uc_io.specs.Sure.{put_under, left_of};

    /// No files, of which none is open.
    pub fn new(alloc: Global) -> Self
        ensures contents { put_under result ≡ λ _. None }
        ensures left { left_of result ≡ [] }
    {
        SureFiles {
            contents: Contents::new(alloc),
            opened: Opened::nothing(),
        }
    }

    /// Puts a copy of bytes under a name, in the place of those that were there. What is left of an open file stays.
    pub fn put(&mut self, name: &str, bytes: &[u8]) -> Result<(), NoMemory>
        ensures ok { OnOk result (Puts (put_under self.old) (put_under self.new) name.now bytes.now) }
        ensures err { OnErr result (put_under self.new ≡ put_under self.old) }
        ensures left { left_of self.new ≡ left_of self.old }
    {
        self.contents.put(name, bytes)
    }

    /// Keeps bytes under a name, as `put` does a copy of them.
    pub fn keep(&mut self, name: &str, bytes: Vec<u8>) -> Result<(), NoMemory>
        ensures ok { OnOk result (Puts (put_under self.old) (put_under self.new) name.now bytes.items) }
        ensures err { OnErr result (put_under self.new ≡ put_under self.old) }
        ensures left { left_of self.new ≡ left_of self.old }
    {
        self.contents.keep(name, bytes)
    }
}

impl Pieces for SureFiles {
    ghost use Rattle.uc_io.specs.Sure.{put_under, left_of};

    ghost tells = { λ _. Unit {0} };

    ghost left = { left_of };

    ghost faults = { λ _. 0 };

    ghost same_source = { λ old new. put_under new ≡ put_under old };

    fn next(&mut self, into: &mut [u8]) -> Result<usize, PieceFailed> {
        Ok(self.opened.take(into))
    }
}

impl Files for SureFiles {
    ghost use Rattle.std.specs.Option.{unwrap_or};
    ghost use Rattle.std.proofs.Common.{ap};
    ghost use Rattle.uc_io.specs.Sure.{holds_of};

    ghost holds = { holds_of };

    ghost holds_stay = { λ old new same. ap (λ put name. unwrap_or (put name) []) same };

    fn read(&mut self, alloc: Global, name: &str, limit: u64) -> Result<Vec<u8>, ReadAnswer> {
        self.opened = Opened::nothing();
        let bytes: &[u8] = self.contents.get(name).unwrap_or(&[]);
        let length = bytes.len() as u64;
        if length > limit {
            return Err(ReadAnswer::TooLong(length));
        }
        Ok(bytes.to_vec(alloc)?)
    }

    fn open_file(&mut self, _alloc: Global, name: &str) -> Result<(), OpenAnswer> {
        self.opened = Opened::nothing();
        self.opened = Opened::all_of(self.contents.share(name)?);
        Ok(())
    }
}
