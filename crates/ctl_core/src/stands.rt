//! Where a thread stands, in eight bytes.

ghost use Rattle.std.specs.Prelude.{◌≡◌};
ghost use Rattle.ctl_core.specs.Stands.{local_of};

use rendezvous_steps::{Local, Phase};

/// A thread's state with its fields so ordered that none is followed by a gap. All threads' states are kept so.
#[derive(Clone, Copy, Debug, PartialEq, Eq)]
pub struct Stand {
    phase: Phase,
    mine: u8,
    at: u16,
    polls: u32,
}

impl Stand {
    #[inline(always)]
    pub fn of(local: Local) -> Stand
        ensures { local_of result ≡ local }
    {
        Stand {
            phase: local.phase,
            mine: local.mine,
            at: local.at,
            polls: local.polls,
        }
    }

    #[inline(always)]
    pub fn local(self) -> Local
        ensures { result ≡ local_of self }
    {
        Local {
            phase: self.phase,
            at: self.at,
            polls: self.polls,
            mine: self.mine,
        }
    }
}
