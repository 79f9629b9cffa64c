ghost use Rattle.std.specs.Prelude.{◌≡◌};

use uc_bytes::FileCause;

/// Why a table is none, in the order of the checks. Intel SDM volume 3A, "Microcode Update Facilities".
#[derive(Clone, Copy, Debug, PartialEq, Eq)]
pub enum ExtFault {
    /// Fewer than the 20 bytes of a table's head.
    Cut,
    /// A length that is not that of the head and the entries that it counts.
    CountMismatch,
    /// Words that do not sum to 0.
    TableSum,
    /// The first entry, by its number, that does not sum to what the header's signature, flags and checksum do.
    EntrySum(u32),
}

impl From<ExtFault> for FileCause {
    ghost use Rattle.intel_ext.specs.Reading.{cause_of};

    ghost from_gives = { λ fault cause. cause ≡ cause_of fault };

    fn from(fault: ExtFault) -> FileCause {
        match fault {
            ExtFault::Cut => FileCause::ExtCut,
            ExtFault::CountMismatch => FileCause::ExtCount,
            ExtFault::TableSum => FileCause::ExtSum,
            ExtFault::EntrySum(entry) => FileCause::EntrySum(entry),
        }
    }
}
