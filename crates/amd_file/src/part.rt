//! What is told of a file while its bytes come.
use crate::container::AmdPatch;
use uc_bytes::FileFault;

/// The head of a container.
#[derive(Clone, Copy, Debug, PartialEq, Eq)]
pub struct AmdHead {
    /// Where the container begins, in bytes from the file's begin.
    pub start: u64,
    /// The length in bytes of its equivalence table, which follows its head of 12 bytes.
    pub table_len: u32,
}

/// What came of a file with the bytes that were taken.
#[derive(Clone, Copy, Debug, PartialEq, Eq)]
pub enum AmdPart {
    /// Nothing that is told: a part of a unit, or bytes that are passed over.
    More,
    /// The head of a container. The rows of its table and then its patches follow.
    Container(AmdHead),
    /// A row of the last container's table: the signature of a processor, and the id of the patches that are for it.
    Row((u32, u16)),
    /// A patch of the last container, which came whole.
    Patch(AmdPatch),
    /// A fault that no further bytes undo.
    Fault(FileFault),
}

/// How much of the bytes that were lent is taken, and what came with it.
#[derive(Clone, Copy, Debug, PartialEq, Eq)]
pub struct Taken {
    /// How many bytes.
    pub len: usize,
    pub part: AmdPart,
}
