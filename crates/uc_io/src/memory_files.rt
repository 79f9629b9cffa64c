//! Files in memory that may fail.
ghost use Rattle.std.specs.Prelude.{◌≡◌, ◌≤◌, ◌↔◌, ◌<◌, false, [], length, IsErr, IsErrOf, OnOk, OnErr, None};
ghost use Rattle.uc_io.specs.Failing.{FailsToo};
ghost use Rattle.uc_io.specs.Faults.{Rose, one_more};
ghost use Rattle.uc_io.specs.Pieces.{IsPieceOf, IsOpened};
ghost use Rattle.uc_io.specs.Putting.{Puts};
ghost use Rattle.uc_io.specs.Reading.{IsReadOf};

use crate::contents::Contents;
use crate::files::{Files, OpenAnswer, ReadAnswer};
use crate::opened::Opened;
use crate::pieces::{PieceFailed, Pieces};
use std::alloc::Global;
use std::collections::BTreeSet;
use uc_bytes::NoMemory;

/// Files in memory, each put under its name. They tell what they hold: a name that was not put holds no bytes, and a
/// read of it fails. Calls that are to fail can be named by their numbers.
#[derive(Drop)]
pub struct MemFiles {
    contents: Contents,
    opened: Opened,
    failing: BTreeSet<u64>,
    calls: u64,
    faults: u64,
}

impl MemFiles {
    ghost use Rattle.uc_io.specs.Memory.{put_under, left_of, faults_of, calls_of, fails_at, SameButContents, SameButFailing};

    /// No files, of which none is open, and no call that is to fail.
    pub fn new(alloc: Global) -> Self
        ensures contents { put_under result ≡ λ _. None }
        ensures left { left_of result ≡ [] }
        ensures faults { faults_of result ≡ 0 }
        ensures calls { calls_of result ≡ 0 }
        ensures failing { fails_at result ≡ λ _. false }
    {
        MemFiles {
            contents: Contents::new(alloc),
            opened: Opened::nothing(),
            failing: BTreeSet::new(alloc),
            calls: 0,
            faults: 0,
        }
    }

    /// Puts bytes under a name, in the place of those that were there. What is left of an open file stays.
    pub fn put(&mut self, name: &str, bytes: &[u8]) -> Result<(), NoMemory>
        ensures ok { OnOk result (Puts (put_under self.old) (put_under self.new) name.now bytes.now) }
        ensures err { OnErr result (put_under self.new ≡ put_under self.old) }
        ensures same { SameButContents self.old self.new }
    {
        self.contents.put(name, bytes)
    }

    /// Lets the call with that number fail. The calls of `read`, `open_file` and `next` are counted together, from 1.
    pub fn fail_at(&mut self, call: u32) -> Result<(), NoMemory>
        ensures ok { OnOk result (FailsToo (fails_at self.old) (fails_at self.new) call) }
        ensures err { OnErr result (fails_at self.new ≡ fails_at self.old) }
        ensures same { SameButFailing self.old self.new }
    {
        self.failing.insert(u64::from(call))?;
        Ok(())
    }

    /// Counts a call, and says whether it is to fail.
    fn begins_to_fail(&mut self) -> bool
        ensures fails { result ≡ fails_at self.old (one_more self.old.calls) }
        ensures same { self.new ≡ record self.old { calls = one_more self.old.calls } }
    {
        self.calls = self.calls.saturating_add(1);
        self.failing.contains(&self.calls)
    }

    fn count_fault(&mut self)
        ensures same { self.new ≡ record self.old { faults = one_more self.old.faults } }
        ensures rose { Rose self.old.faults self.new.faults }
        ensures later { self.old.faults ≤ self.new.faults }
    {
        self.faults = self.faults.saturating_add(1);
    }
}

impl Pieces for MemFiles {
    ghost use Rattle.uc_io.specs.Memory.{put_under, left_of, faults_of, calls_of, fails_at, IsToFail};

    ghost tells = { λ _. Unit {0} };

    ghost left = { left_of };

    ghost faults = { faults_of };

    ghost same_source = { λ old new. put_under new ≡ put_under old };

    fn next(&mut self, into: &mut [u8]) -> Result<usize, PieceFailed>
        requires { 0 < length into.old }
        ensures piece { IsPieceOf (Unit {0}) (left_of self.old) (left_of self.new)
            (faults_of self.old) (faults_of self.new) into.new result }
        ensures source { put_under self.new ≡ put_under self.old }
        ensures failed { IsErr result ↔ IsToFail self.old }
        ensures counted { OnErr result (faults_of self.new ≡ one_more (faults_of self.old)) }
        ensures later { faults_of self.old ≤ faults_of self.new }
        ensures calls { calls_of self.new ≡ one_more (calls_of self.old) }
        ensures failing { fails_at self.new ≡ fails_at self.old }
    {
        if self.begins_to_fail() {
            self.count_fault();
            return Err(PieceFailed);
        }
        Ok(self.opened.take(into))
    }
}

impl Files for MemFiles {
    ghost use Rattle.std.proofs.Common.{ap};
    ghost use Rattle.std.specs.Option.{unwrap_or};
    ghost use Rattle.uc_io.specs.Memory.{put_under, holds_of, left_of, faults_of, calls_of, fails_at, IsRefused};

    ghost holds = { holds_of };

    ghost holds_stay = { λ old new same. ap (λ put name. unwrap_or (put name) []) same };

    fn read(&mut self, alloc: Global, name: &str, limit: u64) -> Result<Vec<u8>, ReadAnswer>
        ensures answer { IsReadOf (Unit {0}) (holds_of self.old name.now) limit
            (faults_of self.old) (faults_of self.new) result }
        ensures contents { put_under self.new ≡ put_under self.old }
        ensures same { holds_of self.new ≡ holds_of self.old }
        ensures closed { left_of self.new ≡ [] }
        ensures failed { IsErrOf result ReadAnswer.Failed ↔ IsRefused self.old name.now }
        ensures counted { IsErrOf result ReadAnswer.Failed → faults_of self.new ≡ one_more (faults_of self.old) }
        ensures later { faults_of self.old ≤ faults_of self.new }
        ensures calls { calls_of self.new ≡ one_more (calls_of self.old) }
        ensures failing { fails_at self.new ≡ fails_at self.old }
    {
        self.opened = Opened::nothing();
        if self.begins_to_fail() {
            self.count_fault();
            return Err(ReadAnswer::Failed);
        }
        let Some(bytes) = self.contents.get(name) else {
            self.count_fault();
            return Err(ReadAnswer::Failed);
        };
        let length = bytes.len() as u64;
        if length > limit {
            return Err(ReadAnswer::TooLong(length));
        }
        Ok(bytes.to_vec(alloc)?)
    }

    fn open_file(&mut self, _alloc: Global, name: &str) -> Result<(), OpenAnswer>
        ensures answer { IsOpened (Unit {0}) (holds_of self.old name.now) (left_of self.new)
            (faults_of self.old) (faults_of self.new) result }
        ensures contents { put_under self.new ≡ put_under self.old }
        ensures same { holds_of self.new ≡ holds_of self.old }
        ensures failed { IsErrOf result OpenAnswer.Failed ↔ IsRefused self.old name.now }
        ensures counted { IsErrOf result OpenAnswer.Failed → faults_of self.new ≡ one_more (faults_of self.old) }
        ensures later { faults_of self.old ≤ faults_of self.new }
        ensures calls { calls_of self.new ≡ one_more (calls_of self.old) }
        ensures failing { fails_at self.new ≡ fails_at self.old }
    {
        self.opened = Opened::nothing();
        if self.begins_to_fail() {
            self.count_fault();
            return Err(OpenAnswer::Failed);
        }
        let Some(bytes) = self.contents.share(name)? else {
            self.count_fault();
            return Err(OpenAnswer::Failed);
        };
        self.opened = Opened::all_of(Some(bytes));
        Ok(())
    }
}
