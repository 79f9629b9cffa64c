//! Bytes under names.
ghost use Rattle.std.specs.Prelude.{◌≡◌, IfOk, IsErr, IsSome, OnOk, OnErr, None};
ghost use Rattle.std.specs.Option.{option_map};
ghost use Rattle.uc_io.specs.Putting.{Puts};

use std::alloc::{AllocError, Global};
use std::collections::BTreeMap;
use std::rc::Rc;
use uc_bytes::NoMemory;

/// The bytes of files in memory, by their names. An open file shares them, so that they stand once.
#[derive(Drop)]
pub(crate) struct Contents {
    alloc: Global,
    by_name: BTreeMap<String, Rc<Vec<u8>>>,
}

impl Contents {
    ghost use Rattle.uc_io.specs.Contents.{bytes_under};

    pub(crate) fn new(alloc: Global) -> Self
        ensures { bytes_under result ≡ λ _. None }
    {
        Contents {
            alloc,
            by_name: BTreeMap::new(alloc),
        }
    }

    /// Puts a copy of bytes under a name, in the place of those that were there.
    pub(crate) fn put(&mut self, name: &str, bytes: &[u8]) -> Result<(), NoMemory>
        ensures ok { OnOk result (Puts (bytes_under self.old) (bytes_under self.new) name.now bytes.now) }
        ensures err { OnErr result (bytes_under self.new ≡ bytes_under self.old) }
    {
        self.keep(name, bytes.to_vec(self.alloc)?)
    }

    /// Keeps bytes under a name, in the place of those that were there.
    pub(crate) fn keep(&mut self, name: &str, bytes: Vec<u8>) -> Result<(), NoMemory>
        ensures ok { OnOk result (Puts (bytes_under self.old) (bytes_under self.new) name.now bytes.items) }
        ensures err { OnErr result (bytes_under self.new ≡ bytes_under self.old) }
    {
        let key = String::from_str(self.alloc, name)?;
        let shared = Rc::new(self.alloc, bytes)?;
        self.by_name.insert(key, shared)?;
        Ok(())
    }

    /// The bytes under a name.
    pub(crate) fn get(&self, name: &str) -> Option<&[u8]>
        ensures { option_map (λ bytes. bytes.now) result ≡ bytes_under self.now name.now }
    {
        match self.by_name.get(name) {
            Some(bytes) => Some(bytes.as_ref().as_slice()),
            None => None,
        }
    }

    /// The bytes under a name, for one more owner.
    pub(crate) fn share(&self, name: &str) -> Result<Option<Rc<Vec<u8>>>, AllocError>
        ensures ok { IfOk result (λ shared. option_map (λ bytes. bytes.value.items) shared ≡ bytes_under self.now name.now) }
        ensures err { IsErr result → IsSome (bytes_under self.now name.now) }
    {
        match self.by_name.get(name) {
            Some(bytes) => Ok(Some(bytes.clone()?)),
            None => Ok(None),
        }
    }
}
