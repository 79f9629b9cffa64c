//! One update of which the bytes come, a unit after another: the header, whole words of data, the head of the table
//! and its entries. Each byte is summed as it comes.
ghost use Rattle.std.specs.Prelude.{◌≡◌, ◌<◌, ◌≤◌, ◌+◌, ◌%◌, ℕ, List, [], ◌++◌, length, option_to_list};
ghost use Rattle.intel_format.specs.Header.{header_triple, total_len, data_len};
ghost use Rattle.intel_file.specs.Stage.{unit_of, IsUnit};
ghost use Rattle.intel_file.specs.declared.progress.Stage.TheVariants.{Data as DataStage};
ghost use Rattle.intel_file.specs.declared.progress.Stage.TheVariants.{Entries as EntriesStage, Over as OverStage};
ghost use Rattle.intel_file.specs.Progress.{IsAt, IsWithin, IsCome, InData, AfterData, BeforeTable, InTable};
ghost use Rattle.intel_file.specs.Progress.{IsPassed, IsTableWhole, HasTable};

use intel_ext::{TableSoFar, begin_table};
use intel_format::IntelHeader;
use intel_header::read_header;
use uc_bytes::{FileCause, word_sum};

/// What comes next of an update.
#[derive(Clone, Copy, Debug, PartialEq, Eq)]
pub enum Stage {
    Header,
    Data,
    TableHead,
    Entries,
    /// What is left is passed over: whatever it is, the update has this fault.
    Over(FileCause),
}

/// How far an update came.
#[derive(Clone, Copy, Debug)]
pub struct Progress {
    pub stage: Stage,
    /// The header that came last.
    pub header: IntelHeader,
    /// How many bytes are left of the data, or of the update where they are passed over.
    pub left: usize,
    /// What the words of header and data that came sum to.
    pub sum: u32,
    pub table: TableSoFar,
}

/// Whether an update ends with what came.
#[derive(Clone, Copy, Debug)]
pub enum End {
    More,
    /// It does, and its table has so many pairs.
    Whole(u32),
    /// It has this fault, whatever follows.
    Fault(FileCause),
}

/// What a unit brought.
#[derive(Clone, Copy, Debug)]
pub struct Came {
    pub pair: Option<(u32, u32)>,
    pub end: End,
}

/// Before the first update nothing came.
pub fn nothing_came() -> Progress
    ensures { IsAt result [] [] }
{
    Progress {
        stage: Stage::Header,
        header: IntelHeader {
            version: 0,
            rev: 0,
            date: 0,
            sig: 0,
            cksum: 0,
            loader: 0,
            flags: 0,
            size_field: 0,
            total_field: 0,
            meta: 0,
            min: 0,
            reserved: 0,
        },
        left: 0,
        sum: 0,
        table: TableSoFar {
            count: 0,
            came: 0,
            sum: 0,
            bad: None,
        },
    }
}

/// What the entries of a table sum to.
fn triple_of(header: &IntelHeader) -> u32
    ensures { result ≡ header_triple header.now }
{
    header
        .sig
        .wrapping_add(header.flags)
        .wrapping_add(header.cksum)
}

impl Progress {
    /// How many bytes the next unit has.
    pub fn unit_len(&self) -> usize
        ensures value { result ≡ unit_of self.now.stage }
        ensures some { 0 < result }
        ensures fits { result ≤ 48 }
    {
        match self.stage {
            Stage::Header => 48,
            Stage::Data | Stage::Over(_) => 4,
            Stage::TableHead => 20,
            Stage::Entries => 12,
        }
    }

    /// How many of so many bytes come at once: a unit, or all whole words that belong together; 0 where they are
    /// short of a unit.
    pub fn at_once(&self, count: usize) -> usize
        ensures within { result ≤ count }
        ensures unit { 0 < result → IsUnit self.now.stage result }
        ensures left { IsWithin self.now result }
    {
        match self.stage {
            Stage::Data | Stage::Over(_) => count.min(self.left) / 4 * 4,
            _ => {
                let unit = self.unit_len();
                if count < unit { 0 } else { unit }
            }
        }
    }

    /// The length of the table of an update whose data came.
    fn table_len(&self) -> u32
        ensures { (done : List ℕ) → AfterData self.now done → length done + result ≡ total_len self.now.header }
    {
        self.header
            .total_len()
            .wrapping_sub(self.header.data_len())
            .wrapping_sub(48)
    }

    /// The update came whole, but for its sum.
    fn close(&mut self, pairs: u32) -> End
        ensures { (own : List ℕ) (listed : List (ℕ × ℕ)) → HasTable self.old own listed → pairs ≡ length listed
            → IsCome own listed self.new result }
    {
        if self.sum != 0 {
            return End::Fault(FileCause::Sum);
        }
        self.stage = Stage::Header;
        End::Whole(pairs)
    }

    /// The table came whole.
    fn close_table(&mut self) -> End
        ensures { (own : List ℕ) (pairs : List (ℕ × ℕ)) → IsTableWhole self.old own pairs
            → IsCome own pairs self.new result }
    {
        match self.table.fault() {
            Some(cause) => End::Fault(cause),
            None => self.close(self.table.count),
        }
    }

    /// The data came whole.
    fn close_data(&mut self) -> End
        ensures { (done : List ℕ) → AfterData self.old done → IsCome done [] self.new result }
    {
        let table_len = self.table_len();
        if table_len == 0 {
            return self.close(0);
        }
        if table_len < 20 {
            self.left = table_len as usize;
            self.stage = Stage::Over(FileCause::ExtCut);
        } else {
            self.stage = Stage::TableHead;
        }
        End::More
    }

    fn header_came(&mut self, unit: &[u8]) -> End
        requires { length unit.now ≡ 48 }
        ensures { IsCome unit.now [] self.new result }
    {
        match read_header(unit) {
            Ok(header) => {
                self.left = header.data_len() as usize;
                self.sum = word_sum(unit);
                self.header = header;
                self.stage = Stage::Data;
                End::More
            }
            Err(fault) => End::Fault(FileCause::from(fault)),
        }
    }

    fn data_came(&mut self, unit: &[u8]) -> End
        requires { length unit.now % 4 ≡ 0 }
        ensures { (done : List ℕ) → self.old.stage ≡ DataStage → InData self.old done
            → length unit.now ≤ self.old.left → IsCome (done ++ unit.now) [] self.new result }
    {
        self.left = self.left.wrapping_sub(unit.len());
        self.sum = self.sum.wrapping_add(word_sum(unit));
        if self.left == 0 {
            self.close_data()
        } else {
            End::More
        }
    }

    fn head_came(&mut self, unit: &[u8]) -> End
        requires { length unit.now ≡ 20 }
        ensures { (done : List ℕ) → BeforeTable self.old done → IsCome (done ++ unit.now) [] self.new result }
    {
        let table_len = self.table_len();
        self.table = begin_table(unit);
        if u64::from(table_len) != 20 + 12 * u64::from(self.table.count) {
            if table_len == 20 {
                return End::Fault(FileCause::ExtCount);
            }
            self.left = table_len.wrapping_sub(20) as usize;
            self.stage = Stage::Over(FileCause::ExtCount);
            End::More
        } else if self.table.count == 0 {
            self.close_table()
        } else {
            self.stage = Stage::Entries;
            End::More
        }
    }

    fn entry_came(&mut self, unit: &[u8]) -> Came
        requires { length unit.now ≡ 12 }
        ensures { (own : List ℕ) (pairs : List (ℕ × ℕ)) → self.old.stage ≡ EntriesStage
            → InTable self.old own pairs
            → IsCome (own ++ unit.now) (pairs ++ option_to_list result.pair) self.new result.end }
    {
        let triple = triple_of(&self.header);
        let pair = Some(self.table.come(unit, triple));
        let end = if self.table.came == self.table.count {
            self.close_table()
        } else {
            End::More
        };
        Came { pair, end }
    }

    fn passed(&mut self, unit: &[u8], cause: FileCause) -> End
        ensures { (own : List ℕ) → self.old.stage ≡ OverStage cause → IsPassed self.old cause own
            → length unit.now % 4 ≡ 0 → length unit.now ≤ self.old.left → IsCome (own ++ unit.now) [] self.new result }
    {
        self.left = self.left.wrapping_sub(unit.len());
        if self.left == 0 {
            End::Fault(cause)
        } else {
            End::More
        }
    }

    /// Takes the next unit, or whole words of the data or of what is passed over.
    pub fn come(&mut self, unit: &[u8]) -> Came
        requires { IsUnit self.old.stage (length unit.now) }
        ensures { (done : List ℕ) (pairs : List (ℕ × ℕ)) → IsAt self.old done pairs
            → IsWithin self.old (length unit.now)
            → IsCome (done ++ unit.now) (pairs ++ option_to_list result.pair) self.new result.end }
    {
        let end = match self.stage {
            Stage::Header => self.header_came(unit),
            Stage::Data => self.data_came(unit),
            Stage::TableHead => self.head_came(unit),
            Stage::Entries => return self.entry_came(unit),
            Stage::Over(cause) => self.passed(unit, cause),
        };
        Came { pair: None, end }
    }
}
