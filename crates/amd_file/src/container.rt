//! The containers of a file, as they are listed.
ghost use Rattle.std.specs.Prelude.{◌≡◌, [], ◌∷◌, ◌++◌, length, OnOk};

use std::alloc::{AllocError, Global};
use std::marker::Model;

/// A container of a file: its head with the equivalence table, and its patches.
#[derive(Debug, Drop)]
pub struct AmdContainer {
    /// Where it begins, in bytes from the file's begin.
    pub start: u64,
    /// The length in bytes of its equivalence table, which follows its head of 12 bytes.
    pub table_len: u32,
    pub patches: Patches,
}

/// A patch of a file. Linux 6.7, `arch/x86/kernel/cpu/microcode/amd.c`, struct microcode_header_amd.
#[derive(Clone, Copy, Debug, PartialEq, Eq)]
pub struct AmdPatch {
    /// Where it begins, in bytes from the file's begin, behind the section's head of 8 bytes.
    pub start: u64,
    /// Its length in bytes, without the section's head.
    pub len: u64,
    /// Its revision.
    pub rev: u32,
    /// Its id, which rows of the equivalence table give.
    pub id: u16,
}

/// The patches of a container, in the order of the file. A contract sees their list.
#[derive(Debug, Drop)]
pub struct Patches {
    patches: Vec<AmdPatch>,
}

impl Model for Patches {
    ghost use Rattle.std.specs.Prelude.{List};
    ghost use Rattle.amd_file.specs.declared.container.AmdPatch.{AmdPatch};

    ghost Value = { List AmdPatch };

    ghost view = { λ p. p.patches.items };
}

impl Patches {
    pub(crate) fn new(alloc: Global) -> Patches
        ensures { result ≡ [] }
    {
        Patches {
            patches: Vec::new(alloc),
        }
    }

    /// How many there are.
    pub fn len(&self) -> usize
        ensures { result ≡ length self.now }
    {
        self.patches.len()
    }

    pub fn as_slice(&self) -> &[AmdPatch]
        ensures { result.now ≡ self.now }
    {
        self.patches.as_slice()
    }

    /// Adds a patch at the end.
    pub(crate) fn push(&mut self, patch: AmdPatch) -> Result<(), AllocError>
        ensures { OnOk result (self.new ≡ self.old ++ patch ∷ []) }
    {
        self.patches.push(patch)?;
        Ok(())
    }
}
