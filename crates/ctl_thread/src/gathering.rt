//! The rows of the table up to the decision.

ghost use Rattle.std.specs.Prelude.{◌≡◌};
ghost use Rattle.rendezvous_steps.specs.StepTable as table;
ghost use Rattle.rendezvous_steps.specs.declared.steps.Phase.TheVariants.{Outside, Kicking, OfflineWait, Arriving};
ghost use Rattle.rendezvous_steps.specs.declared.steps.Phase.TheVariants.{Deciding, Waiting};
ghost use Rattle.ctl_words.specs.Plans.{plan_of};

use crate::moves::{go_path, kick_at, loop_at, polled, to, wait_in};
use crate::turns::Turn;
use ctl_words::Plan;
use rendezvous_steps::{How, Kind, Local, Phase, What};

impl Turn<'_> {
    ghost use Rattle.ctl_thread.specs.Turns.{row_of};

    #[inline(always)]
    pub fn outside(&self) -> (Local, What)
        ensures { result ≡ row_of self.now Outside }
    {
        match self.plan.kind_of(self.thread) {
            Kind::Offline => after_kick(self.local, self.how, self.found),
            _ => (self.entered(), What::Enter),
        }
    }

    #[inline(always)]
    pub fn kicking(&self) -> (Local, What)
        ensures { result ≡ row_of self.now Kicking }
    {
        let next = self.first_offline(u32::from(self.local.at) + 1);
        (kick_at(self.local, next), What::Kick(self.local.at))
    }

    #[inline(always)]
    pub fn offline_wait(&self) -> (Local, What)
        ensures { result ≡ row_of self.now OfflineWait }
    {
        match self.how {
            How::Timeout => {
                let item = if self.found == 0 {
                    What::DropKick
                } else {
                    What::Inner
                };
                (self.drop_path(), item)
            }
            _ if self.found == u64::from(self.offline()) => (
                to(self.local, Phase::Arriving),
                What::Inner,
            ),
            _ => (polled(self.local), What::Poll),
        }
    }

    #[inline(always)]
    pub fn arriving(&self) -> (Local, What)
        ensures { result ≡ row_of self.now Arriving }
    {
        if self.found == 1 {
            (to(self.local, Phase::Deciding), What::Arrive)
        } else {
            (wait_in(self.local, Phase::Waiting), What::Arrive)
        }
    }

    #[inline(always)]
    pub fn deciding(&self) -> (Local, What)
        ensures { result ≡ row_of self.now Deciding }
    {
        if self.found == 0 {
            (go_path(self.plan, self.thread, self.local), What::Go)
        } else {
            (self.drop_path(), What::Inner)
        }
    }

    #[inline(always)]
    pub fn waiting(&self) -> (Local, What)
        ensures { result ≡ row_of self.now Waiting }
    {
        match (self.found, self.how) {
            (0, How::Timeout) => (self.drop_path(), What::Drop),
            (0, _) => (polled(self.local), What::Poll),
            (1, _) => (go_path(self.plan, self.thread, self.local), What::Inner),
            _ => (self.drop_path(), What::Inner),
        }
    }

    /// Thread 0 goes on to the kicks, if there is one to make.
    #[inline(always)]
    fn entered(&self) -> Local
        ensures { result ≡ table.entered (plan_of self.now.plan.now) self.now.thread self.now.local.now }
    {
        if self.thread == 0 {
            loop_at(
                self.local,
                Phase::Kicking,
                self.first_offline(0),
                Phase::Arriving,
            )
        } else {
            to(self.local, Phase::Arriving)
        }
    }
}

/// An Offline thread takes its kick, finds it taken back, or is not kicked yet.
fn after_kick(local: &Local, how: How, found: u64) -> (Local, What)
    ensures { result ≡ table.after_kick local.now how found }
{
    match found {
        1 => (to(local, Phase::OfflineCount), What::Enter),
        3 => (to(local, Phase::Withdrawn), outside_item(how, What::Idle)),
        _ => (*local, outside_item(how, What::Poll)),
    }
}

/// What an Offline thread shows that is not taken: where an NMI came, it runs ordinary code.
fn outside_item(how: How, quiet: What) -> What
    ensures { result ≡ table.outside_item how quiet }
{
    match how {
        How::Nmi => What::Ordinary,
        _ => quiet,
    }
}
