//! What a step answers.

use rendezvous_steps::What;

/// What a step came to.
#[derive(Clone, Copy, Debug, PartialEq, Eq)]
pub enum Seen {
    /// The thread did this.
    Moved(What),
    /// It waits, and the word that it loaded was not ready.
    NotYet,
    /// It has come to its last phase, and did nothing.
    Finished,
}

impl Seen {
    ghost use Rattle.std.specs.Prelude.{◌≡◌};
    ghost use Rattle.ctl_table.specs.Seen.{seen_of};

    pub(crate) fn of(what: What) -> Seen
        ensures { result ≡ seen_of what }
    {
        match what {
            What::Poll => Seen::NotYet,
            What::Idle => Seen::Finished,
            what => Seen::Moved(what),
        }
    }
}
