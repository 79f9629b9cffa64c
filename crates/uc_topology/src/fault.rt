/// Why a text states no topology.
#[derive(Clone, Copy, Debug, PartialEq, Eq)]
pub enum TopoCause {
    /// The first line is not `ucode-topology` and the version 1 or 2, or there is no line.
    Head = 1,
    /// A line has none of the forms of its place.
    Word = 2,
    /// A word is no number, or a number passes its width: 16 bits for cores, threads and packages, 32 for all others.
    Number = 3,
    /// A core or a thread is not the next one, or a package is greater than the number of packages before it.
    Order = 4,
    /// A thread's core has no line before it.
    NoCore = 5,
    /// A 257th line of cores or of threads.
    TooMany = 6,
    /// A core has no thread, or there is no thread.
    EmptyCore = 7,
    /// The text passes 1,048,576 bytes. A program says so before it reads.
    TooLong = 8,
    /// More threads than can run live. A program says so.
    LiveLimit = 9,
    /// A core's signature, flags or revision are not those of its package's first core.
    Disagree = 11,
}

/// The first fault of a text: its line, from 1, or 0 where it is of no line, and its cause.
#[derive(Clone, Copy, Debug, PartialEq, Eq)]
pub struct TopoFault {
    pub line: u32,
    pub cause: TopoCause,
}
