//! A table that takes no more memory than its entries need.

ghost use Rattle.std.specs.Prelude.{◌≤◌, vec_len};

use arrayvec::ArrayVec;
use std::alloc::Global;
use uc_bytes::NoMemory;

/// A table of at most 256 entries on the heap. An `ArrayVec` has all of its 256 places, whatever it holds.
#[derive(Drop)]
pub struct ExactTable<T> {
    pub entries: Vec<T>,
    ghost few: { vec_len entries ≤ 256 },
}

impl<T: Copy + Default + Drop> ExactTable<T> {
    ghost use Rattle.std.specs.Prelude.{◌≡◌, ◌<◌, [], ◌++◌, ◌∷◌, IfOk, vec_capacity};

    /// The same entries, and room for no more. It answers want of memory and nothing else.
    pub fn of(alloc: Global, table: &ArrayVec<T, 256>) -> Result<ExactTable<T>, NoMemory>
        ensures { IfOk result (λ exact. exact.entries.items ≡ table.now.items) }
    {
        let entries = Vec::from_slice(alloc, table.as_slice())?;
        Ok(ExactTable { entries })
    }

    /// No entries yet, and room for so many. It answers want of memory and nothing else.
    pub fn with_room(alloc: Global, room: u16) -> Result<ExactTable<T>, NoMemory>
        ensures none { IfOk result (λ exact. exact.entries.items ≡ []) }
        ensures room { IfOk result (λ exact. vec_capacity exact.entries ≡ room) }
    {
        let entries = Vec::with_capacity(alloc, usize::from(room))?;
        Ok(ExactTable { entries })
    }

    /// Lets the entries go, and keeps the room.
    pub fn clear(&mut self)
        ensures none { self.new.entries.items ≡ [] }
        ensures room { vec_capacity self.new.entries ≡ vec_capacity self.old.entries }
    {
        self.entries.clear();
    }

    /// Adds an entry. It takes no memory.
    pub fn push(&mut self, entry: T)
        requires few { vec_len self.old.entries < 256 }
        requires room { vec_len self.old.entries < vec_capacity self.old.entries }
        ensures entries { self.new.entries.items ≡ self.old.entries.items ++ entry ∷ [] }
        ensures room { vec_capacity self.new.entries ≡ vec_capacity self.old.entries }
    {
        self.entries.push_reserved(entry);
    }

    /// Gives a table these entries. What it held is let go. It takes no memory.
    pub fn fill(&self, table: &mut ArrayVec<T, 256>)
        ensures { table.new.items ≡ self.now.entries.items }
    {
        table.clear();
        table
            .try_extend_from_slice(self.entries.as_slice())
            .unwrap();
    }
}
