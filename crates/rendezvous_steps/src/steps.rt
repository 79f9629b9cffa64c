//! What a thread of a load is, where it stands, and what it ends with.

ghost use Rattle.std.specs.Prelude.{◌≡◌};
ghost use Rattle.rendezvous_steps.specs.Plan.{is_online, is_offline, is_absent};
ghost use Rattle.rendezvous_steps.specs.StepTable.{number_of, result_of};

/// What a thread is when a load begins.
#[derive(Clone, Copy, Debug, Default, PartialEq, Eq)]
pub enum Kind {
    /// It runs, and takes part.
    Online,
    /// It is soft-offline, and is kicked.
    Offline,
    /// It is cold, and takes no part.
    #[default]
    Absent,
}

impl Kind {
    pub fn is_online(self) -> bool
        ensures { result ≡ is_online self }
    {
        matches!(self, Kind::Online)
    }

    pub fn is_offline(self) -> bool
        ensures { result ≡ is_offline self }
    {
        matches!(self, Kind::Offline)
    }

    pub fn is_absent(self) -> bool
        ensures { result ≡ is_absent self }
    {
        matches!(self, Kind::Absent)
    }
}

/// What a thread leaves with. The numbers are 1 to 6.
#[derive(Clone, Copy, Debug, PartialEq, Eq)]
pub enum ThreadResult {
    Updated = 1,
    Okay = 2,
    Current = 3,
    Error = 4,
    Timeout = 5,
    Offline = 6,
}

impl ThreadResult {
    /// Its number.
    pub fn number(self) -> u8
        ensures { result ≡ number_of self }
    {
        match self {
            ThreadResult::Updated => 1,
            ThreadResult::Okay => 2,
            ThreadResult::Current => 3,
            ThreadResult::Error => 4,
            ThreadResult::Timeout => 5,
            ThreadResult::Offline => 6,
        }
    }

    /// The result with this number. A number that no result has is taken for Error's.
    pub fn from_number(number: u64) -> ThreadResult
        ensures { result ≡ result_of number }
    {
        match number {
            1 => ThreadResult::Updated,
            2 => ThreadResult::Okay,
            3 => ThreadResult::Current,
            5 => ThreadResult::Timeout,
            6 => ThreadResult::Offline,
            _ => ThreadResult::Error,
        }
    }
}

/// Where a thread stands in the rendezvous.
#[derive(Clone, Copy, Debug, PartialEq, Eq)]
pub enum Phase {
    /// It has not entered the handler.
    Outside,
    /// Thread 0 kicks an Offline thread.
    Kicking,
    /// Thread 0 waits for the kicked threads.
    OfflineWait,
    /// It counts itself in.
    Arriving,
    /// It arrived last, and decides.
    Deciding,
    /// It waits for the decision.
    Waiting,
    /// A primary reads its group's revision.
    Reading,
    /// A primary says that it will write.
    Beginning,
    /// A primary writes.
    Writing,
    /// A primary reads what its write left.
    Checking,
    /// A primary reports its result.
    Reporting,
    /// A primary frees another thread of its group.
    Freeing,
    /// A sibling waits for its primary.
    SiblingWait,
    /// A sibling reads the revision that its primary wrote.
    SiblingCheck,
    /// A sibling takes over its primary's result.
    SiblingCopy,
    /// Thread 0 takes back a kick.
    Withdrawing,
    /// Thread 0 frees an Offline thread that came.
    Releasing,
    /// An Offline thread counts itself in.
    OfflineCount,
    /// An Offline thread waits to be freed.
    OfflineHold,
    /// It is about to leave the handler.
    Leaving,
    /// It left.
    Left,
    /// It waited too long and halted.
    Halted,
    /// Its kick was taken back before it came.
    Withdrawn,
    /// It takes no part.
    Nothing,
}

/// What a thread knows of itself between two steps.
#[derive(Clone, Copy, Debug, PartialEq, Eq)]
pub struct Local {
    pub phase: Phase,
    /// The thread that a loop over threads is at.
    pub at: u16,
    /// How many polls the present or the last wait has had, up to the greatest number.
    pub polls: u32,
    /// The number of the result that the thread will leave with, or 0.
    pub mine: u8,
}

/// How a step comes about.
#[derive(Clone, Copy, Debug, PartialEq, Eq)]
pub enum How {
    Step,
    /// The thread has waited too long.
    Timeout,
    /// An NMI from elsewhere has come.
    Nmi,
}
