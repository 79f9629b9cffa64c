/// Why a text is no script. The checks of a line are made in the order `Head`, `Word`, `Number`, `Range`, `TooMany`.
#[derive(Clone, Copy, Debug, PartialEq, Eq)]
pub enum ScriptCause {
    /// The first line is not `ucode-script 1`, or there is no line.
    Head = 1,
    /// A line has none of the forms of its place, or has a name that is not UTF-8.
    Word = 2,
    /// A word is no number, or passes 64 bits.
    Number = 3,
    /// A pool is not 1 to 65,536 blocks, a patience passes 32 bits, there is no such thread or core, or so many rounds
    /// are not 1 to 65,535.
    Range = 4,
    /// A load has no `end`.
    NoEnd = 5,
    /// A 4,097th command, or more than 4,194,304 events in one load.
    TooMany = 6,
    /// The text passes 16,777,216 bytes. A program says so before it reads.
    TooLong = 7,
}

/// The first fault of a text: its line, from 1, or 0 where there is no line, and its cause.
#[derive(Clone, Copy, Debug, PartialEq, Eq)]
pub struct ScriptFault {
    pub line: u32,
    pub cause: ScriptCause,
}
