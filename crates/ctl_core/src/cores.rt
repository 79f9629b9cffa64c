//! A rendezvous that is played event by event.

ghost use Rattle.std.specs.Prelude.{◌≡◌, ◌+◌, ◌*◌, ◌≤◌};
ghost use Rattle.play_steps.specs.Rank.{all_ranks, is_counted};
ghost use Rattle.ctl_words.specs.Plans.{plan_of, IsSound};
ghost use Rattle.ctl_core.specs.Moments.{running_of, Fits};

use crate::moments::Moment;
use ctl_words::Plan;
use rendezvous_steps::{Event, Item, What};
use std::alloc::Global;
use uc_bytes::NoMemory;
use uc_rendezvous::Outcome;

/// A rendezvous with a plan, at one moment.
#[derive(Drop)]
pub struct Core<'a> {
    plan: &'a Plan,
    moment: Moment,
    spent: u32,
    ghost sound: { IsSound plan.now },
    ghost fits: { Fits (plan_of plan.now) moment },
    ghost few: { spent + all_ranks (plan_of plan.now) (running_of moment).locals ≤ 20 * plan.now.threads + 8 },
}

impl<'a> Core<'a> {
    ghost use Rattle.std.specs.Prelude.{IfOk, IsNone, IsTrue, ◌<◌, ◌↔◌, if◌then◌else◌};
    ghost use Rattle.rendezvous_steps.specs.Events.{happens, opening_running};
    ghost use Rattle.rendezvous_model.specs.RoundStep.{Round, thread_of};
    ghost use Rattle.rendezvous_model.specs.Safe.{Safe};
    ghost use Rattle.play_steps.specs.Play.{is_over};
    ghost use Rattle.rendezvous_model.specs.Outcome.{OutcomeShows};
    ghost use Rattle.uc_rendezvous.specs.Outcomes.{outcome_of};
    ghost use Rattle.ctl_core.specs.Cores.{plan_in, moment_in, state_in, spent_in, IsLawful};
    ghost use Rattle.ctl_core.specs.Cores.{lowest_unfinished, lowest_ready};

    /// The moment in which a rendezvous with this plan begins. It answers want of memory and nothing else.
    pub fn new(alloc: Global, plan: &'a Plan) -> Result<Core<'a>, NoMemory>
        requires { IsSound plan.now }
        ensures plan { IfOk result (λ core. plan_in core ≡ plan_of plan.now) }
        ensures opening { IfOk result (λ core. moment_in core ≡ opening_running (plan_of plan.now)) }
        ensures spent { IfOk result (λ core. spent_in core ≡ 0) }
        ensures lawful { IfOk result IsLawful }
    {
        Core::over(Moment::none(alloc), plan)
    }

    /// The same in the room of an earlier moment.
    pub(crate) fn over(mut moment: Moment, plan: &'a Plan) -> Result<Core<'a>, NoMemory>
        requires { IsSound plan.now }
        ensures plan { IfOk result (λ core. plan_in core ≡ plan_of plan.now) }
        ensures opening { IfOk result (λ core. moment_in core ≡ opening_running (plan_of plan.now)) }
        ensures spent { IfOk result (λ core. spent_in core ≡ 0) }
        ensures lawful { IfOk result IsLawful }
    {
        moment.begin(plan)?;
        Ok(Core {
            plan,
            moment,
            spent: 0,
        })
    }

    /// Its moment, for the room that it has.
    pub(crate) fn into_moment(self) -> Moment {
        self.moment
    }

    /// How many threads the plan has.
    pub fn threads(&self) -> u16
        ensures { result ≡ (plan_in self.now).threads }
    {
        self.plan.threads
    }

    /// Does one event, as the definition says. It takes no memory. From a moment that meets the rule between steps, as
    /// each has that events lead to, the item is a step of the model between the states that are shown, and the next is
    /// safe.
    #[inline(always)]
    pub fn event(&mut self, event: Event) -> Item
        requires { thread_of event < (plan_in self.old).threads }
        ensures thread { result.thread ≡ thread_of event }
        ensures item { result.what ≡ (happens (plan_in self.old) event (moment_in self.old)).1 }
        ensures moment { moment_in self.new ≡ (happens (plan_in self.old) event (moment_in self.old)).0 }
        ensures plan { plan_in self.new ≡ plan_in self.old }
        ensures spent { spent_in self.new ≡ spent_in self.old + (if is_counted result.what then 1 else 0) }
        ensures lawful { IsLawful self.old → IsLawful self.new }
        ensures round { IsLawful self.old
            → Round (plan_in self.old) (state_in self.old) event result.what (state_in self.new) }
        ensures safe { IsLawful self.old → Safe (plan_in self.new) (state_in self.new) }
    {
        let item = self.moment.event(self.plan, event);
        if is_counted(item.what) {
            self.spent += 1;
        }
        item
    }

    /// Whether no thread is unfinished.
    #[inline(always)]
    pub fn is_over(&self) -> bool
        ensures { result ≡ is_over (plan_in self.now) (moment_in self.now) }
    {
        self.moment.unfinished() == 0
    }

    /// The lowest thread that is unfinished. It takes no memory.
    pub fn finished(&self) -> Option<u16>
        ensures { result ≡ lowest_unfinished (plan_in self.now) (state_in self.now) }
    {
        self.moment.first_unfinished(self.plan)
    }

    /// The lowest unfinished thread whose next step is no Poll. It takes no memory. There is none exactly where it is
    /// over.
    pub fn ready(&self) -> Option<u16>
        ensures lowest { result ≡ lowest_ready (plan_in self.now) (moment_in self.now) }
        ensures none { IsLawful self.now
            → (IsNone result ↔ IsTrue (is_over (plan_in self.now) (moment_in self.now))) }
    {
        self.moment.first_ready(self.plan)
    }

    /// What would be left of the rendezvous if it ended here. It takes no memory.
    pub fn outcome(&self) -> Outcome
        ensures { OutcomeShows (plan_in self.now) (outcome_of result) (state_in self.now) }
    {
        let mut outcome = Outcome::new();
        self.fill_outcome(&mut outcome);
        outcome
    }

    /// Makes an outcome that of the rendezvous if it ended here. It takes no memory.
    pub fn fill_outcome(&self, outcome: &mut Outcome)
        ensures { OutcomeShows (plan_in self.now) (outcome_of outcome.new) (state_in self.now) }
    {
        outcome.decide = self.moment.decision();
        self.moment.fill_ends(self.plan, &mut outcome.ends);
        self.moment.fill_revisions(self.plan, &mut outcome.revs);
    }

    /// How many items so far were none of Poll, Idle, Latched and Ordinary: at most 20 for each thread and 8 more.
    pub fn spent(&self) -> u32
        ensures count { result ≡ spent_in self.now }
        ensures few { result ≤ 20 * (plan_in self.now).threads + 8 }
    {
        self.spent
    }
}

/// Whether an item is none of Poll, Idle, Latched and Ordinary.
#[inline(always)]
fn is_counted(what: What) -> bool
    ensures { result ≡ is_counted what }
{
    !matches!(
        what,
        What::Poll | What::Idle | What::Latched | What::Ordinary
    )
}
