//! A thread's place at a bay.

use crate::standings::View;
use atomic_table::Seat;
use rendezvous_steps::{Local, Phase};

/// A thread's place at a bay: whoever holds it steps the thread.
#[derive(Drop)]
pub struct Post {
    pub(crate) seat: Seat<(), View>,
    pub(crate) thread: u16,
    pub(crate) local: Local,
    pub(crate) given: u16,
    pub(crate) joined: u16,
    pub(crate) late: bool,
}

impl Post {
    ghost use Rattle.std.specs.Prelude.{◌≡◌};
    ghost use Rattle.ctl_table.specs.Posts.{thread_of, phase_of, polls_of, given_by, joined_by, is_late, is_waiting};

    /// The number of its thread.
    pub fn thread(&self) -> u16
        ensures { result ≡ thread_of self.now }
    {
        self.thread
    }

    /// Where its thread stands.
    pub fn phase(&self) -> Phase
        ensures { result ≡ phase_of self.now }
    {
        self.local.phase
    }

    /// How many polls the present or the last wait of its thread has had.
    pub fn polls(&self) -> u32
        ensures { result ≡ polls_of self.now }
    {
        self.local.polls
    }

    /// Whether its thread is where it may wait too long.
    pub fn waits(&self) -> bool
        ensures { result ≡ is_waiting (phase_of self.now) }
    {
        matches!(
            self.local.phase,
            Phase::OfflineWait | Phase::Waiting | Phase::SiblingWait | Phase::OfflineHold
        )
    }

    /// How many posts thread 0's has split off.
    pub fn given(&self) -> u16
        ensures { result ≡ given_by self.now }
    {
        self.given
    }

    /// How many posts thread 0's has joined.
    pub fn joined(&self) -> u16
        ensures { result ≡ joined_by self.now }
    {
        self.joined
    }

    /// Whether `time_out` was called with it, or with a post that it joined.
    pub fn late(&self) -> bool
        ensures { result ≡ is_late self.now }
    {
        self.late
    }
}
