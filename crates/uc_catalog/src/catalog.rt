ghost use Rattle.std.specs.Prelude.{◌≡◌, ◌^◌, ◌<◌, ◌≤◌, ◌+◌, IsTrue, length, slice_get, sum_by, take, ℕ, List, None, Some, vec_len};
ghost use Rattle.uc_bytes.specs.declared.TheConstants.{FILE_LIMIT};

use crate::coming::Coming;
use crate::file::{KeptFile, keep_rows};
use crate::found::Found;
use crate::place::place_of;
use entry_model::EntryFacts;
use file_rows::FileRows;
use std::alloc::Global;
use std::marker::Model;
use uc_bytes::{FileAnswer, Vendor};

/// Update files and their entries. A contract sees whether their bytes are kept, each file's vendor and number of entries,
/// and all entries in the order of the files and of their places there. Files and entries are numbered from 0.
#[derive(Debug, Drop)]
pub struct Catalog {
    alloc: Global,
    keeps: bool,
    files: Vec<KeptFile>,
    /// The file that is being read, if pieces of one came.
    coming: Option<Coming>,
}

impl Model for Catalog {
    ghost use Rattle.uc_catalog.specs.Contents.{Contents};
    ghost use Rattle.uc_catalog.specs.Files.{contents_of, AreKept, IsComing};

    ghost Value = { Contents };

    ghost view = { λ catalog. contents_of catalog.keeps catalog.files.items catalog.coming };

    ghost invariant = { λ catalog. AreKept catalog.keeps catalog.files.items × IsComing catalog.keeps catalog.coming };
}

impl Catalog {
    ghost use Rattle.std.specs.Prelude.{true, false};
    ghost use Rattle.amd_format.specs.Equiv.{id_of};
    ghost use Rattle.entry_model.specs.Entry.{served};
    ghost use Rattle.uc_catalog.specs.Contents.{no_files, with_coming, IsCounted, IsAdded, IsEnded, IsFed, Comes, fed_of, file_at, entry_at};
    ghost use Rattle.uc_catalog.specs.Files.{IsFound};

    /// A catalogue without files, which will keep their bytes.
    pub fn new(alloc: Global) -> Catalog
        ensures { result ≡ no_files true }
    {
        Catalog {
            alloc,
            keeps: true,
            files: Vec::new(alloc),
            coming: None,
        }
    }

    /// A catalogue without files, which will keep no file's bytes: all that it tells is told as by one that does, but for
    /// `bytes_of`.
    pub fn of_facts(alloc: Global) -> Catalog
        ensures { result ≡ no_files false }
    {
        Catalog {
            alloc,
            keeps: false,
            files: Vec::new(alloc),
            coming: None,
        }
    }

    /// Whether it keeps the files' bytes.
    pub fn keeps_bytes(&self) -> bool
        ensures { result ≡ self.now.keeps }
    {
        self.keeps
    }

    /// Adds a file of at most 67,108,864 bytes behind those that stand, of which there are at most 15. A file without a
    /// reading is refused with its first fault. Where it is, or where memory runs out, the catalogue stays as it was.
    pub fn add(&mut self, bytes: Vec<u8>) -> Result<(), FileAnswer>
        requires room { length self.old.files < 16 }
        requires short { vec_len bytes ≤ FILE_LIMIT }
        ensures added { IsAdded self.old self.new bytes.items result }
        ensures counted { IsCounted self.new }
    {
        self.files.reserve(1)?;
        let rows = match keep_rows(self.alloc, bytes.as_slice()) {
            Ok(rows) => rows,
            Err(answer) => return Err(answer),
        };
        let bytes = if self.keeps {
            bytes
        } else {
            Vec::new(self.alloc)
        };
        self.files.push_reserved(KeptFile { rows, bytes });
        Ok(())
    }

    /// Takes the next bytes of the file that is being read, which has at most 67,108,864. It answers a fault exactly
    /// where its bytes have one that no further bytes undo, and later calls answer it again. Files and entries stay as
    /// they were.
    pub fn feed(&mut self, piece: &[u8]) -> Result<(), FileAnswer>
        requires { fed_of self.old + length piece.now ≤ FILE_LIMIT }
        ensures same { self.new ≡ with_coming self.new.coming self.old }
        ensures fed { fed_of self.new ≤ fed_of self.old + length piece.now }
        ensures come { (bytes : List ℕ) → Comes bytes self.old → IsFed bytes piece.now self.new result }
    {
        Coming::begin(self.alloc, &mut self.coming);
        match &mut self.coming {
            Some(coming) => coming.feed(self.keeps, piece),
            None => unreachable!(),
        }
    }

    /// Adds the file that was read, of which no more bytes come, as `add` would; with no piece fed, the empty file. At
    /// most 15 files stand. Where it is refused, it is forgotten; without memory all stays as it was.
    pub fn end_file(&mut self) -> Result<(), FileAnswer>
        requires { length self.old.files < 16 }
        ensures ended { (bytes : List ℕ) → Comes bytes self.old → IsEnded self.old self.new bytes result }
        ensures counted { IsCounted self.new }
    {
        self.files.reserve(1)?;
        match Coming::finish_of(self.alloc, self.coming.take()) {
            Ok(file) => {
                self.files.push_reserved(file);
                Ok(())
            }
            Err(fault) => Err(FileAnswer::Fault(fault)),
        }
    }

    /// Forgets the file that is being read, if there is one.
    pub fn drop_file(&mut self)
        ensures { self.new ≡ with_coming None self.old }
    {
        if self.coming.is_some() {
            self.coming = None;
        }
    }

    /// The number of files.
    pub fn files(&self) -> u32
        ensures { result ≡ length self.now.files }
    {
        self.files.len() as u32
    }

    /// The vendor of a file, also of one without entries: AMD exactly where the magic of a container begins it.
    pub fn vendor_of(&self, f: u32) -> Vendor
        requires { f < length self.now.files }
        ensures { result ≡ (file_at self.now f).vendor }
    {
        self.files[f as usize].rows.vendor()
    }

    /// The number of entries of a file, which stand behind those of the files before it.
    pub fn entries_of(&self, f: u32) -> u32
        requires { f < length self.now.files }
        ensures count { result ≡ (file_at self.now f).entries }
        ensures within { sum_by (λ file. file.entries) (take f self.now.files) + result ≤ length self.now.entries }
        ensures counted { IsCounted self.now }
    {
        self.files[f as usize].rows.count()
    }

    /// The number of entries, at most 1,048,576. Its contract says also that these are as many as the files have.
    pub fn len(&self) -> u32
        ensures count { result ≡ length self.now.entries }
        ensures counted { IsCounted self.now }
    {
        let mut len = 0;
        'files: for file in &self.files {
            len += file.rows.count();
        }
        len
    }

    /// An entry with what tells what it is.
    fn found(&self, i: u32) -> Found<'_>
        requires { i < length self.now.entries }
        ensures { IsFound (entry_at self.now i) result }
    {
        let place = place_of(self.files.as_slice(), i);
        let row = place.row as usize;
        match &self.files[place.file as usize].rows {
            FileRows::Updates(kept) => {
                let update = &kept.rows[row];
                let at = update.pairs_at as usize;
                let pairs = &kept.pairs[at..at + update.pairs as usize];
                Found::Update(place.file, update, pairs)
            }
            FileRows::Patches(kept) => {
                let patch = &kept.rows[row];
                Found::Patch(place.file, patch, &kept.tables[patch.table])
            }
        }
    }

    /// The facts of an entry.
    pub fn entry(&self, i: u32) -> EntryFacts
        requires { i < length self.now.entries }
        ensures { result ≡ (entry_at self.now i).facts }
    {
        match self.found(i) {
            Found::Update(file, update, _) => update.facts(file),
            Found::Patch(file, patch, _) => patch.facts(file),
        }
    }

    /// How many pairs of a signature and processor flags an entry is for: the header's and its table's. An AMD entry has
    /// none.
    pub fn pairs(&self, i: u32) -> u32
        requires { i < length self.now.entries }
        ensures { result ≡ length (entry_at self.now i).pairs }
    {
        match self.found(i) {
            Found::Update(_, _, pairs) => 1 + pairs.len() as u32,
            Found::Patch(..) => 0,
        }
    }

    /// A pair of an entry: a signature, and the processor flags that go with it. The header's is the first.
    pub fn pair(&self, i: u32, k: u32) -> (u32, u32)
        requires entry { i < length self.now.entries }
        requires within { k < length (entry_at self.now i).pairs }
        ensures { slice_get (entry_at self.now i).pairs k ≡ Some result }
    {
        match self.found(i) {
            Found::Update(_, update, pairs) => {
                if k == 0 {
                    (update.sig, update.flags)
                } else {
                    pairs[(k - 1) as usize]
                }
            }
            Found::Patch(..) => (0, 0),
        }
    }

    /// The bytes of an entry, where they are kept: of an update header, data and table, of a patch what follows its
    /// section's head. A header has at least 48 bytes.
    pub fn bytes_of(&self, i: u32) -> &[u8]
        requires entry { i < length self.now.entries }
        requires keeps { IsTrue self.now.keeps }
        ensures bytes { result.now ≡ (entry_at self.now i).bytes }
        ensures header { 48 ≤ length result.now }
        ensures few { length result.now < 2 ^ 32 }
    {
        let place = place_of(self.files.as_slice(), i);
        let file = &self.files[place.file as usize];
        let (start, len) = file.rows.extent(place.row);
        &file.bytes.as_slice()[start as usize..start as usize + len as usize]
    }

    /// The id that the table of an AMD entry's own container gives for a processor's signature; 0, which means none, where
    /// no row has it, and of an Intel entry.
    pub fn id_for(&self, i: u32, sig: u32) -> u16
        requires { i < length self.now.entries }
        ensures { result ≡ id_of (entry_at self.now i).rows sig }
    {
        match self.found(i) {
            Found::Update(..) => 0,
            Found::Patch(_, _, index) => index.id_of(sig),
        }
    }

    /// The k-th signature, in the order of its container's table, that an AMD entry is for.
    pub fn served(&self, i: u32, k: u32) -> Option<u32>
        requires { i < length self.now.entries }
        ensures value { result ≡ slice_get (served (entry_at self.now i)) k }
        ensures few { length (served (entry_at self.now i)) < 2 ^ 32 }
    {
        match self.found(i) {
            Found::Update(..) => None,
            Found::Patch(_, patch, index) => {
                if patch.id == 0 {
                    None
                } else {
                    index.served(patch.id, k)
                }
            }
        }
    }
}
