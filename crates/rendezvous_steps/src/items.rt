//! What happens in a rendezvous.

use crate::steps::ThreadResult;

/// What a thread did in one event. Numbers without a name are those of threads, or of a group where it says so.
#[derive(Clone, Copy, Debug, PartialEq, Eq)]
pub enum What {
    /// It entered the handler.
    Enter,
    /// It kicked an Offline thread.
    Kick(u16),
    /// It counted itself in.
    Arrive,
    /// It decided that the load goes on.
    Go,
    /// It gave up on the threads that did not arrive.
    Drop,
    /// Thread 0 gave up on the kicked threads.
    DropKick,
    /// Thread 0 took back a kick.
    Withdraw(u16),
    /// The write of this group begins.
    Begin(u16),
    /// The write of this group left this revision.
    Wrote(u16, u32),
    /// The primary of this group reported.
    Report(u16, ThreadResult),
    /// It freed another thread.
    Free(u16),
    /// It left the handler.
    Leave(ThreadResult),
    /// It waited too long for its release, and halted.
    Halt,
    /// It ran ordinary code.
    Ordinary,
    /// It waits, and what it waits for is not there.
    Poll,
    /// It did something inside the handler that nobody else sees.
    Inner,
    /// An NMI came while it was in the handler, and waits.
    Latched,
    /// It did nothing.
    Idle,
}

/// An event of a schedule, and the number of its thread.
#[derive(Clone, Copy, Debug, PartialEq, Eq)]
pub enum Event {
    Step(u16),
    Timeout(u16),
    /// An NMI from elsewhere.
    Nmi(u16),
    /// The thread tries to run ordinary code.
    Run(u16),
}

/// What an event came to.
#[derive(Clone, Copy, Debug, PartialEq, Eq)]
pub struct Item {
    pub thread: u16,
    pub what: What,
}
