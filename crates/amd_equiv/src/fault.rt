ghost use Rattle.std.specs.Prelude.{◌≡◌};

use uc_bytes::FileCause;

/// Why no container's table begins the bytes, in the order of the checks. Linux 6.7,
/// `arch/x86/kernel/cpu/microcode/amd.c`, verify_container and verify_equivalence_table.
#[derive(Clone, Copy, Debug, PartialEq, Eq)]
pub enum EquivFault {
    /// Fewer than the 12 bytes of a container's head.
    Short,
    /// A first word that is not the magic.
    Magic,
    /// A type that is not 0.
    Type0,
    /// A table of fewer than the 16 bytes of a row.
    TableSmall,
    /// A table that passes the end of the bytes.
    TableCut,
}

impl From<EquivFault> for FileCause {
    ghost use Rattle.amd_equiv.specs.Reading.{cause_of};

    ghost from_gives = { λ fault cause. cause ≡ cause_of fault };

    fn from(fault: EquivFault) -> FileCause {
        match fault {
            EquivFault::Short => FileCause::EquivShort,
            EquivFault::Magic => FileCause::Magic,
            EquivFault::Type0 => FileCause::EquivType,
            EquivFault::TableSmall => FileCause::TableSmall,
            EquivFault::TableCut => FileCause::TableCut,
        }
    }
}
