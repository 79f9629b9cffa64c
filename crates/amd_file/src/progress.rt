//! How far the bytes of a file that came reach.
ghost use Rattle.std.specs.Prelude.{◌≡◌};
ghost use Rattle.amd_file.specs.Stage.{want, most};

use uc_bytes::FileFault;

/// What the header of a patch says.
#[derive(Clone, Copy, Debug, PartialEq, Eq)]
pub struct PatchHeader {
    /// The patch's length in bytes, which its section's head says.
    pub len: u32,
    /// The patch's revision.
    pub rev: u32,
    /// The patch's id.
    pub id: u16,
    /// It is for a device of the chipset.
    pub for_chipset: bool,
}

/// Where the bytes end that came.
#[derive(Clone, Copy, Debug, PartialEq, Eq)]
pub enum Stage {
    /// In the head of a container.
    Head,
    /// In the first 8 bytes behind a table or a section.
    Next,
    /// In a row of a table: how many rows follow this one, and how many bytes the last row.
    Rows(u32, u32),
    /// Behind the last row of a table: how many bytes are left after one.
    Tail(u32),
    /// In the header of a patch of so many bytes.
    Header(u32),
    /// Behind the header of a patch: how many bytes are left after one.
    Body(PatchHeader, u32),
    /// Behind a fault that no further bytes undo.
    Failed(FileFault),
}

impl Stage {
    /// How many bytes at least are taken together.
    pub fn want(self) -> usize
        ensures { result ≡ want self }
    {
        match self {
            Stage::Head => 12,
            Stage::Next => 8,
            Stage::Rows(_, _) => 16,
            Stage::Header(_) => 64,
            _ => 1,
        }
    }

    /// How many bytes at most are taken together.
    pub fn most(self) -> usize
        ensures { result ≡ most self }
    {
        match self {
            Stage::Tail(left) => left as usize + 1,
            Stage::Body(_, left) => left as usize + 1,
            Stage::Failed(_) => 67_108_864,
            stage => stage.want(),
        }
    }
}

/// How far the bytes reach.
#[derive(Clone, Copy, Debug)]
pub struct Progress {
    /// How many came.
    pub fed: usize,
    /// Where the container or the section begins in which they end.
    pub start: usize,
    /// How many patches came whole.
    pub patches: usize,
    pub stage: Stage,
}
