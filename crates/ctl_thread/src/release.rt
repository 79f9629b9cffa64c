//! The rows of the table after the decision: a primary's write and report, its siblings, and the kicks taken back.

ghost use Rattle.std.specs.Prelude.{◌≡◌, ◌==◌};
ghost use Rattle.rendezvous_steps.specs.StepTable as table;
ghost use Rattle.rendezvous_steps.specs.Plan.{offer_or_rev0};
ghost use Rattle.rendezvous_steps.specs.StepTable.{exceeds};
ghost use Rattle.rendezvous_steps.specs.declared.steps.Phase.TheVariants.{Reading, Beginning, Writing, Checking};
ghost use Rattle.rendezvous_steps.specs.declared.steps.Phase.TheVariants.{Reporting, Freeing, SiblingWait};
ghost use Rattle.rendezvous_steps.specs.declared.steps.Phase.TheVariants.{SiblingCheck, SiblingCopy, Withdrawing};
ghost use Rattle.rendezvous_steps.specs.declared.steps.Phase.TheVariants.{Releasing, OfflineCount, OfflineHold};
ghost use Rattle.rendezvous_steps.specs.declared.steps.Phase.TheVariants.{Leaving};
ghost use Rattle.ctl_words.specs.Plans.{plan_of};

use crate::moves::{free_at, polled, to, wait_in, with_result, withdraw_at};
use crate::next_step::{offer_or_rev0, told, write_of};
use crate::turns::Turn;
use ctl_words::Plan;
use rendezvous_steps::{How, Local, Phase, ThreadResult, What};

impl Turn<'_> {
    ghost use Rattle.ctl_thread.specs.Turns.{row_of};

    #[inline(always)]
    pub fn reading(&self) -> (Local, What)
        ensures { result ≡ row_of self.now Reading }
    {
        if exceeds(
            self.plan.offer_of(self.plan.group_of(self.thread)),
            self.found,
        ) {
            (to(self.local, Phase::Beginning), What::Inner)
        } else {
            (
                with_result(self.local, ThreadResult::Current, Phase::Reporting),
                What::Inner,
            )
        }
    }

    #[inline(always)]
    pub fn beginning(&self) -> (Local, What)
        ensures { result ≡ row_of self.now Beginning }
    {
        (
            to(self.local, Phase::Writing),
            What::Begin(self.plan.group_of(self.thread)),
        )
    }

    #[inline(always)]
    pub fn writing(&self) -> (Local, What)
        ensures { result ≡ row_of self.now Writing }
    {
        let group = self.plan.group_of(self.thread);
        (
            to(self.local, Phase::Checking),
            What::Wrote(group, write_of(self.plan, group)),
        )
    }

    #[inline(always)]
    pub fn checking(&self) -> (Local, What)
        ensures { result ≡ row_of self.now Checking }
    {
        let mine = if holds_offer(self.plan, self.thread, self.found) {
            ThreadResult::Updated
        } else {
            ThreadResult::Error
        };
        (with_result(self.local, mine, Phase::Reporting), What::Inner)
    }

    #[inline(always)]
    pub fn reporting(&self) -> (Local, What)
        ensures { result ≡ row_of self.now Reporting }
    {
        let mine = told(self.local);
        let reported = with_result(self.local, mine, Phase::Reporting);
        let next = free_at(&reported, self.first_sibling());
        (next, What::Report(self.plan.group_of(self.thread), mine))
    }

    #[inline(always)]
    pub fn freeing(&self) -> (Local, What)
        ensures { result ≡ row_of self.now Freeing }
    {
        let next = free_at(self.local, self.next_sibling());
        let item = if self.found == 0 {
            What::Free(self.local.at)
        } else {
            What::Inner
        };
        (next, item)
    }

    #[inline(always)]
    pub fn sibling_wait(&self) -> (Local, What)
        ensures { result ≡ row_of self.now SiblingWait }
    {
        match (self.found, self.how) {
            (0, How::Timeout) => (to(self.local, Phase::Halted), What::Halt),
            (0, _) => (polled(self.local), What::Poll),
            (1, _) => (to(self.local, Phase::SiblingCheck), What::Inner),
            _ => (to(self.local, Phase::SiblingCopy), What::Inner),
        }
    }

    #[inline(always)]
    pub fn sibling_check(&self) -> (Local, What)
        ensures { result ≡ row_of self.now SiblingCheck }
    {
        let mine = if holds_offer(self.plan, self.thread, self.found) {
            ThreadResult::Okay
        } else {
            ThreadResult::Error
        };
        (with_result(self.local, mine, Phase::Leaving), What::Inner)
    }

    #[inline(always)]
    pub fn sibling_copy(&self) -> (Local, What)
        ensures { result ≡ row_of self.now SiblingCopy }
    {
        (
            with_result(
                self.local,
                ThreadResult::from_number(self.found),
                Phase::Leaving,
            ),
            What::Inner,
        )
    }

    #[inline(always)]
    pub fn withdrawing(&self) -> (Local, What)
        ensures { result ≡ row_of self.now Withdrawing }
    {
        if self.found == 1 {
            let next = self.first_offline(u32::from(self.local.at) + 1);
            (withdraw_at(self.local, next), What::Withdraw(self.local.at))
        } else {
            (to(self.local, Phase::Releasing), What::Inner)
        }
    }

    #[inline(always)]
    pub fn releasing(&self) -> (Local, What)
        ensures { result ≡ row_of self.now Releasing }
    {
        let next = withdraw_at(self.local, self.first_offline(u32::from(self.local.at) + 1));
        let item = if self.found == 0 {
            What::Free(self.local.at)
        } else {
            What::Inner
        };
        (next, item)
    }

    #[inline(always)]
    pub fn offline_count(&self) -> (Local, What)
        ensures { result ≡ row_of self.now OfflineCount }
    {
        (wait_in(self.local, Phase::OfflineHold), What::Arrive)
    }

    #[inline(always)]
    pub fn offline_hold(&self) -> (Local, What)
        ensures { result ≡ row_of self.now OfflineHold }
    {
        match (self.found, self.how) {
            (0, How::Timeout) => (to(self.local, Phase::Halted), What::Halt),
            (0, _) => (polled(self.local), What::Poll),
            _ => (to(self.local, Phase::Leaving), What::Inner),
        }
    }

    #[inline(always)]
    pub fn leaving(&self) -> (Local, What)
        ensures { result ≡ row_of self.now Leaving }
    {
        let mine = told(self.local);
        (
            with_result(self.local, mine, Phase::Left),
            What::Leave(mine),
        )
    }
}

/// The offer is there and greater than the revision.
#[inline(always)]
fn exceeds(offer: Option<u32>, revision: u64) -> bool
    ensures { result ≡ exceeds offer revision }
{
    match offer {
        Some(offer) => revision < u64::from(offer),
        None => false,
    }
}

/// The revision that was found is the offer of the thread's group.
#[inline(always)]
fn holds_offer(plan: &Plan, thread: u16, found: u64) -> bool
    ensures { result ≡ (found == offer_or_rev0 (plan_of plan.now) ((plan_of plan.now).group thread)) }
{
    found == u64::from(offer_or_rev0(plan, plan.group_of(thread)))
}
