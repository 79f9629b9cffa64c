//! What is gathered of an AMD file while it comes.
ghost use Rattle.std.specs.Prelude.{◌≡◌, ◌+◌, ◌^◌, ◌<◌, ◌≤◌, ℕ, false, OnOk, length, take, vec_len};
ghost use Rattle.file_rows.specs.PatchSums.{nothing, with_part, table_by, sum_of};

use crate::patches::{PatchRow, PatchRows};
use amd_file::{AmdPart, AmdPatch};
use equiv_index::RowIndex;
use std::alloc::{AllocError, Global};
use std::mem::swap;
use uc_bytes::NoMemory;

/// The rows of the patches that came, and what came of the last container's table.
#[derive(Debug, Drop)]
pub struct Gathered {
    alloc: Global,
    pub rows: PatchRows,
    /// The rows of that table, where its container began in an earlier piece.
    pub table: Vec<(u32, u16)>,
    /// The same where it began in this piece.
    pub fresh: Vec<(u32, u16)>,
    /// It began in this piece.
    pub begun: bool,
    /// There is an index of it, or no container came yet.
    pub indexed: bool,
}

/// How much stands where a piece begins.
#[derive(Clone, Copy, Debug)]
pub struct Mark {
    rows: usize,
    tables: usize,
    table: usize,
    indexed: bool,
}

impl Gathered {
    ghost use Rattle.amd_file.specs.declared.part.AmdPart.TheVariants.{Row, Patch};
    ghost use Rattle.file_rows.specs.declared.gathered.Gathered.{Gathered as Before};
    ghost use Rattle.file_rows.specs.PatchSums.{with_index, mark_of, IsShort};

    /// Nothing.
    pub fn new(alloc: Global) -> Gathered
        ensures sum { sum_of result ≡ nothing }
        ensures settled { result.begun ≡ false }
        ensures table { vec_len result.table ≡ 0 }
        ensures fresh { vec_len result.fresh ≡ 0 }
    {
        Gathered {
            alloc,
            rows: PatchRows {
                rows: Vec::new(alloc),
                tables: Vec::new(alloc),
            },
            table: Vec::new(alloc),
            fresh: Vec::new(alloc),
            begun: false,
            indexed: true,
        }
    }

    /// The rows of the last container's table.
    fn last_table(&self) -> &[(u32, u16)]
        ensures { result.now ≡ table_by self.now.begun self.now.table.items self.now.fresh.items }
    {
        if self.begun {
            self.fresh.as_slice()
        } else {
            self.table.as_slice()
        }
    }

    /// Adds a row of the last container's table.
    fn add_row(&mut self, row: (u32, u16)) -> Result<(), AllocError>
        ensures ok { OnOk result (sum_of self.new ≡ with_part (sum_of self.old) (Row row)) }
        ensures rows { self.new.rows ≡ self.old.rows }
        ensures begun { self.new.begun ≡ self.old.begun }
        ensures indexed { self.new.indexed ≡ self.old.indexed }
        ensures table { take (vec_len self.old.table) self.new.table.items ≡ self.old.table.items }
        ensures few_table { length self.new.table.items ≤ length self.old.table.items + 1 }
        ensures few_fresh { length self.new.fresh.items ≤ length self.old.fresh.items + 1 }
    {
        if self.begun {
            self.fresh.push(row)?;
        } else {
            self.table.push(row)?;
        }
        Ok(())
    }

    /// Makes the index of the last container's table, where there is none yet.
    fn make_index(&mut self) -> Result<(), NoMemory>
        requires table { length self.old.table.items < 2 ^ 32 }
        requires fresh { length self.old.fresh.items < 2 ^ 32 }
        ensures ok { OnOk result (sum_of self.new ≡ with_index (sum_of self.old)) }
        ensures rows { self.new.rows.rows ≡ self.old.rows.rows }
        ensures tables { take (vec_len self.old.rows.tables) self.new.rows.tables.items ≡ self.old.rows.tables.items }
        ensures table_same { self.new.table ≡ self.old.table }
        ensures fresh_same { self.new.fresh ≡ self.old.fresh }
        ensures begun { self.new.begun ≡ self.old.begun }
    {
        if self.indexed {
            return Ok(());
        }
        let index = RowIndex::new(self.alloc, self.last_table())?;
        self.rows.tables.push(index)?;
        self.indexed = true;
        Ok(())
    }

    /// Adds a patch of the last container.
    fn add_patch(&mut self, patch: &AmdPatch) -> Result<(), NoMemory>
        requires table { length self.old.table.items < 2 ^ 32 }
        requires fresh { length self.old.fresh.items < 2 ^ 32 }
        requires start { patch.now.start < 2 ^ 32 }
        requires len { patch.now.len < 2 ^ 32 }
        ensures ok { OnOk result (sum_of self.new ≡ with_part (sum_of self.old) (Patch patch.now)) }
        ensures rows { take (vec_len self.old.rows.rows) self.new.rows.rows.items ≡ self.old.rows.rows.items }
        ensures tables { take (vec_len self.old.rows.tables) self.new.rows.tables.items ≡ self.old.rows.tables.items }
        ensures table_same { self.new.table ≡ self.old.table }
        ensures fresh_same { self.new.fresh ≡ self.old.fresh }
        ensures begun { self.new.begun ≡ self.old.begun }
    {
        self.make_index()?;
        let table = self.rows.tables.len().saturating_sub(1);
        self.rows.rows.push(PatchRow::new(patch, table))?;
        Ok(())
    }

    /// Adds what came. What stood before stays, also where memory runs out.
    pub fn add(&mut self, part: AmdPart) -> Result<(), NoMemory>
        requires table { length self.old.table.items < 2 ^ 32 }
        requires fresh { length self.old.fresh.items < 2 ^ 32 }
        requires inside { IsShort part }
        ensures ok { OnOk result (sum_of self.new ≡ with_part (sum_of self.old) part) }
        ensures rows { take (vec_len self.old.rows.rows) self.new.rows.rows.items ≡ self.old.rows.rows.items }
        ensures tables { take (vec_len self.old.rows.tables) self.new.rows.tables.items ≡ self.old.rows.tables.items }
        ensures table { take (vec_len self.old.table) self.new.table.items ≡ self.old.table.items }
        ensures few_table { length self.new.table.items ≤ length self.old.table.items + 1 }
        ensures few_fresh { length self.new.fresh.items ≤ length self.old.fresh.items + 1 }
    {
        match part {
            AmdPart::Container(_) => {
                self.fresh.clear();
                self.begun = true;
                self.indexed = false;
                Ok(())
            }
            AmdPart::Row(row) => {
                self.add_row(row)?;
                Ok(())
            }
            AmdPart::Patch(patch) => self.add_patch(&patch),
            _ => Ok(()),
        }
    }

    /// Keeps of the tables only the last, at the end of a piece.
    pub fn settle(&mut self)
        ensures sum { sum_of self.new ≡ sum_of self.old }
        ensures settled { self.new.begun ≡ false }
        ensures few { (most : ℕ) → length self.old.table.items ≤ most → length self.old.fresh.items ≤ most
            → length self.new.table.items ≤ most }
        ensures fresh { vec_len self.new.fresh ≡ 0 }
    {
        if self.begun {
            swap(&mut self.table, &mut self.fresh);
            self.begun = false;
        }
        self.fresh.clear();
    }

    /// What stands where a piece begins.
    pub fn mark(&self) -> Mark
        ensures { result ≡ mark_of self.now }
    {
        Mark {
            rows: self.rows.rows.len(),
            tables: self.rows.tables.len(),
            table: self.table.len(),
            indexed: self.indexed,
        }
    }

    /// Goes back to what stood there.
    pub fn go_back(&mut self, mark: Mark)
        ensures back { (before : Before) → mark ≡ mark_of before → before.begun ≡ false
            → take (vec_len before.rows.rows) self.old.rows.rows.items ≡ before.rows.rows.items
            → take (vec_len before.rows.tables) self.old.rows.tables.items ≡ before.rows.tables.items
            → take (vec_len before.table) self.old.table.items ≡ before.table.items
            → sum_of self.new ≡ sum_of before }
        ensures settled { self.new.begun ≡ false }
        ensures few { length self.new.table.items ≤ mark.table }
        ensures fresh { vec_len self.new.fresh ≡ 0 }
    {
        self.rows.rows.truncate(mark.rows);
        self.rows.tables.truncate(mark.tables);
        self.table.truncate(mark.table);
        self.fresh.clear();
        self.begun = false;
        self.indexed = mark.indexed;
    }

    /// The rows.
    pub fn into_rows(self) -> PatchRows
        ensures { result ≡ self.rows }
    {
        self.rows
    }
}
