ghost use Rattle.std.specs.Prelude.{◌≡◌};
ghost use Rattle.uc_bytes.specs.declared.causes.FileAnswer.TheVariants.{NoMemory as NoMemoryAnswer};

use std::alloc::{AllocError, AllocFailed};

/// Who makes the processors that an update file is for.
#[derive(Clone, Copy, Debug, PartialEq, Eq)]
pub enum Vendor {
    Intel,
    Amd,
}

/// Memory ran out. No contract says when.
#[derive(Clone, Copy, Debug, PartialEq, Eq)]
pub struct NoMemory;

impl From<AllocError> for NoMemory {
    fn from(_error: AllocError) -> NoMemory {
        NoMemory
    }
}

impl<T: Drop> From<AllocFailed<T>> for NoMemory {
    fn from(_error: AllocFailed<T>) -> NoMemory {
        NoMemory
    }
}

/// Why an update file has no reading. The formats are those of Intel SDM volume 3A, "Microcode Update Facilities",
/// and of the container files that Linux 6.7 accepts in `arch/x86/kernel/cpu/microcode/amd.c`.
#[derive(Clone, Copy, Debug, PartialEq, Eq)]
pub enum FileCause {
    /// Intel: fewer bytes than a header's 48.
    Short,
    /// A data size or total size that is no multiple of 4.
    SizeUnaligned,
    /// A total size below the header's 48 bytes.
    TotalSmall,
    /// A header and data that pass the total size.
    DataPastTotal,
    /// A header version or loader revision that is not 1.
    Version,
    /// A total size that passes the end of the file.
    Truncated,
    /// An extended signature table of fewer than 20 bytes.
    ExtCut,
    /// An extended signature table whose length does not go with its count.
    ExtCount,
    /// An extended signature table whose words do not sum to 0.
    ExtSum,
    /// The first entry of an extended signature table, by its number, whose checksum is not the one of its pair.
    EntrySum(u32),
    /// A header and data whose words do not sum to 0.
    Sum,
    /// AMD: fewer than the 12 bytes of a container's head.
    EquivShort,
    /// AMD: no container magic where a container has to begin.
    Magic,
    /// AMD: an equivalence table whose type is not 0.
    EquivType,
    /// AMD: an equivalence table of fewer than 16 bytes.
    TableSmall,
    /// AMD: an equivalence table that passes the end of the file.
    TableCut,
    /// AMD: fewer than the 8 bytes of a section's head.
    SectionShort,
    /// AMD: a section whose type is not 1.
    SectionType,
    /// AMD: a patch of fewer bytes than its header's 64.
    PatchSmall,
    /// AMD: a patch that passes the end of the file.
    PatchCut,
    /// AMD: a patch longer than its family allows.
    FamilySize,
    /// AMD: a patch for a chipset device.
    Chipset,
    /// More than 65,536 updates or patches.
    TooMany,
    /// More than [`FILE_LIMIT`](crate::FILE_LIMIT) bytes.
    TooLong,
}

/// Where a file goes wrong, in bytes from its begin, and why.
#[derive(Clone, Copy, Debug, PartialEq, Eq)]
pub struct FileFault {
    pub offset: u64,
    pub cause: FileCause,
}

/// Why a reader gives nothing.
#[derive(Clone, Copy, Debug, PartialEq, Eq)]
pub enum FileAnswer {
    Fault(FileFault),
    NoMemory,
}

impl From<AllocError> for FileAnswer {
    ghost from_gives = { λ _ answer. answer ≡ NoMemoryAnswer };

    fn from(_error: AllocError) -> FileAnswer {
        FileAnswer::NoMemory
    }
}

impl<T: Drop> From<AllocFailed<T>> for FileAnswer {
    ghost from_gives = { λ _ answer. answer ≡ NoMemoryAnswer };

    fn from(_error: AllocFailed<T>) -> FileAnswer {
        FileAnswer::NoMemory
    }
}
