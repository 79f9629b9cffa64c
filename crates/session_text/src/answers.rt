//! What a command of a session answers.

use machine_steps::HotAnswer;
use uc_bytes::FileFault;

/// What a load without a reboot answers. A file is known by its place among the names, from 0; other numbers are those
/// of threads, where nothing else is said.
#[derive(Clone, Copy, Debug, PartialEq, Eq)]
pub enum LoadAnswer {
    /// Every group that takes part runs what it was offered.
    Done,
    /// This thread is not up, and it is the lowest of a group or core that takes part.
    Busy(u16),
    /// This file was not read.
    ReadFault(u16),
    /// This file is refused, at a place and for a cause.
    BadFile(u16, FileFault),
    /// No group that takes part is offered anything.
    NotFound,
    /// The patches do not fit: a run of so many blocks is wanted.
    PoolFull(u32),
    /// This thread waited too long for its release, and halted.
    Panicked(u16),
    /// This thread had not come to an end when the schedule ended.
    Unfinished(u16),
    /// Thread 0 gave up on the kicked threads, and took back so many kicks.
    OfflineSilent(u16),
    /// This thread gave up on those that did not arrive.
    TimedOut(u16),
    /// The group of this primary refused the write, and no thread left with success.
    Failed(u16),
    /// The group of this primary refused the write, and another group was written.
    Incomplete(u16),
}

/// What a command answers.
#[derive(Clone, Copy, Debug, PartialEq, Eq)]
pub enum CommandAnswer {
    Done,
    /// The machine refuses it.
    Hot(HotAnswer),
    /// A load, or the files of a boot, came to this. It is never `LoadAnswer::Done`.
    Load(LoadAnswer),
}

/// What a session answers.
#[derive(Clone, Copy, Debug, PartialEq, Eq)]
pub enum SessionAnswer {
    /// Every command was done.
    Ended,
    /// Some command was not done, and none of the answers below ended the session.
    Short,
    /// An update file is refused.
    BadInput,
    /// An update file was not read.
    ReadFault,
    /// What was written did not all get out.
    WriteFault,
    /// This thread waited too long for its release, and halted.
    Panicked(u16),
    NoMemory,
}

/// What a call that runs one command came to.
#[derive(Clone, Copy, Debug, PartialEq, Eq)]
pub enum Played {
    Answered(CommandAnswer),
    /// What was written did not all get out.
    WriteFault,
    NoMemory,
}
