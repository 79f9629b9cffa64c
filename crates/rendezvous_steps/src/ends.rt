//! What a rendezvous is asked, and what it comes to for a thread.

use crate::steps::ThreadResult;

/// A part of a schedule: one event of a thread, or rounds. An event is no enum within it, so that a beat takes four
/// bytes.
#[derive(Clone, Copy, Debug, PartialEq, Eq)]
pub enum Beat {
    /// A step of a thread.
    Step(u16),
    /// A step of a thread whose patience is at an end.
    Timeout(u16),
    /// An NMI from elsewhere at a thread.
    Nmi(u16),
    /// A thread tries to run ordinary code.
    Run(u16),
    /// So many rounds. A round is one step of each thread in ascending order, of those that take no part too.
    Rounds(u16),
}

/// How a thread came out of a rendezvous.
#[derive(Clone, Copy, Debug, Default, PartialEq, Eq)]
pub enum End {
    /// It took no part.
    #[default]
    Absent,
    /// It left the handler with this result.
    Left(ThreadResult),
    /// It waited too long for its release, and halted.
    Halted,
    /// Its kick was taken back before it came.
    Withdrawn,
    /// It was outside or in the handler when the schedule ended.
    Unfinished,
}
