//! The files of the host.
ghost use Rattle.std.specs.Prelude.{◌≡◌, ◌<◌, ◌≤◌, [], take, length, Some, IfOk, OnErr, MatchResult};
ghost use Rattle.std.specs.Io.KnownBytes.{Consumes, Keeps, IsAtEnd};
ghost use Rattle.uc_io.specs.Faults.{Rose};
ghost use Rattle.uc_io.specs.Limits.{KeepsLimit};
ghost use Rattle.uc_io.specs.Pieces.{IsOpened, IsPieceOf};
ghost use Rattle.uc_io.specs.Reading.{IsReadOf};

use crate::files::{Files, OpenAnswer, ReadAnswer};
use crate::pieces::{PieceFailed, Pieces};
use crate::reads::{Unread, read_some, read_whole};
use std::alloc::Global;
use std::fs::OpenFile;
use std::{fs, io, rt as host};

/// A call that failed.
#[derive(Drop)]
pub struct Failure {
    name: Option<String>,
    why: io::Error,
}

impl Failure {
    /// The name of the file, where it is known and memory for it was there.
    pub fn name(&self) -> Option<&str> {
        self.name.as_ref().map(|name| name.as_str())
    }

    /// What the host says of it.
    pub fn why(&self) -> io::Error {
        self.why
    }
}

/// The files of the host, by their paths. They tell nothing of what a name holds, since another program can change it.
/// Where the open file tells what is left of it, `next` takes the front of that.
#[derive(Drop)]
pub struct HostFiles<R: host::Files> {
    rt: R,
    opened: Option<R::File>,
    /// The name of the file that is open, where memory for it was there and no call on the file failed yet.
    name: Option<String>,
    failure: Option<Failure>,
    faults: u64,
}

impl<R: host::Files> HostFiles<R> {
    ghost use Rattle.uc_io.specs.Host.{failed_reads_of, left_in};

    /// The files that the runtime's object reaches.
    pub fn new(rt: R) -> Self
        ensures faults { failed_reads_of result ≡ 0 }
        ensures closed { left_in R.File.Read.remaining result ≡ Some [] }
    {
        HostFiles {
            rt,
            opened: None,
            name: None,
            failure: None,
            faults: 0,
        }
    }

    /// The last call that failed.
    pub fn failure(&self) -> Option<&Failure> {
        self.failure.as_ref()
    }

    /// Counts a call that failed, and keeps why.
    fn fail(&mut self, name: Option<String>, why: io::Error)
        ensures opened { self.new.opened ≡ self.old.opened }
        ensures rose { Rose self.old.faults self.new.faults }
        ensures later { self.old.faults ≤ self.new.faults }
    {
        self.failure = Some(Failure { name, why });
        self.faults = self.faults.saturating_add(1);
    }
}

impl<R: host::Files> Pieces for HostFiles<R> {
    ghost use Rattle.uc_io.specs.Host.{failed_reads_of, left_in};

    ghost tells = { λ _. ⊥ };

    ghost left = { λ _. [] };

    ghost faults = { failed_reads_of };

    ghost same_source = { λ _ _. Unit {0} };

    fn next(&mut self, into: &mut [u8]) -> Result<usize, PieceFailed>
        requires { 0 < length into.old }
        ensures piece { IsPieceOf ⊥ [] [] (failed_reads_of self.old) (failed_reads_of self.new) into.new result }
        ensures later { failed_reads_of self.old ≤ failed_reads_of self.new }
        ensures told { MatchResult result
            (λ taken. Consumes (left_in R.File.Read.remaining self.old) (left_in R.File.Read.remaining self.new) (take taken into.new))
            (λ _. Keeps (left_in R.File.Read.remaining self.old) (left_in R.File.Read.remaining self.new)) }
        ensures end { IfOk result (λ taken. taken ≡ 0 → IsAtEnd (left_in R.File.Read.remaining self.new)) }
    {
        let Some(file) = &mut self.opened else {
            return Ok(0);
        };
        match read_some(file, into) {
            Ok(taken) => Ok(taken),
            Err(why) => {
                let name = self.name.take();
                self.fail(name, why);
                Err(PieceFailed)
            }
        }
    }
}

impl<R: host::Files> Files for HostFiles<R> {
    ghost use Rattle.std.proofs.Common.{refl};
    ghost use Rattle.uc_io.specs.Host.{failed_reads_of, left_in};

    ghost holds = { λ _ _. [] };

    ghost holds_stay = { λ _ _ _. refl };

    fn read(&mut self, alloc: Global, name: &str, limit: u64) -> Result<Vec<u8>, ReadAnswer>
        ensures answer { IsReadOf ⊥ [] limit (failed_reads_of self.old) (failed_reads_of self.new) result }
        ensures closed { left_in R.File.Read.remaining self.new ≡ Some [] }
        ensures later { failed_reads_of self.old ≤ failed_reads_of self.new }
    {
        self.opened = None;
        self.name = None;
        match read_file(&self.rt, alloc, name, limit) {
            Ok(bytes) => Ok(bytes),
            Err(Unread::Failed(why)) => {
                self.fail(String::from_str(alloc, name).ok(), why);
                Err(ReadAnswer::Failed)
            }
            Err(Unread::TooLong(taken)) => Err(ReadAnswer::TooLong(taken)),
            Err(Unread::NoMemory) => Err(ReadAnswer::NoMemory),
        }
    }

    /// Takes no memory but for the name, which a failure tells.
    fn open_file(&mut self, alloc: Global, name: &str) -> Result<(), OpenAnswer>
        ensures answer { IsOpened ⊥ [] [] (failed_reads_of self.old) (failed_reads_of self.new) result }
        ensures closed { OnErr result (left_in R.File.Read.remaining self.new ≡ Some []) }
        ensures later { failed_reads_of self.old ≤ failed_reads_of self.new }
    {
        self.opened = None;
        self.name = None;
        let kept = String::from_str(alloc, name).ok();
        match fs::open(&self.rt, name) {
            Ok(file) => {
                self.opened = Some(file);
                self.name = kept;
                Ok(())
            }
            Err(why) => {
                self.fail(kept, why);
                Err(OpenAnswer::Failed)
            }
        }
    }
}

/// Opens the file of a path and reads it whole.
fn read_file<R: host::Files>(
    rt: &R,
    alloc: Global,
    name: &str,
    limit: u64,
) -> Result<Vec<u8>, Unread>
    ensures { KeepsLimit limit result }
{
    let mut file = fs::open(rt, name)?;
    let expected = match file.metadata() {
        Ok(metadata) => metadata.len(),
        Err(_) => 0,
    };
    read_whole(&mut file, alloc, limit, expected.min(limit) as usize)
}
