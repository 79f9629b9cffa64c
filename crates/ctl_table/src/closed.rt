//! What a bay came to.

ghost use Rattle.ctl_table.specs.Ended.{ClosedShows};
ghost use Rattle.ctl_table.specs.Exact.{exact_plan_of, exact_outcome_of};

use crate::exact_outcomes::ExactOutcome;
use crate::exact_plans::ExactPlan;
use ctl_words::Plan;
use uc_rendezvous::Outcome;

/// What a bay came to. Only `Bay::close` makes one. It has no more memory than its threads and groups need, since
/// whoever runs many loads keeps one of each.
#[derive(Drop)]
pub struct Closed {
    pub(crate) plan: ExactPlan,
    pub(crate) outcome: ExactOutcome,
    pub(crate) late: bool,
    ghost shows: { ∥ ClosedShows (exact_plan_of plan) (exact_outcome_of outcome) late ∥₁ },
}

impl Closed {
    ghost use Rattle.std.specs.Prelude.{◌≡◌};
    ghost use Rattle.ctl_words.specs.Plans.{plan_of};
    ghost use Rattle.uc_rendezvous.specs.Outcomes.{outcome_of};
    ghost use Rattle.ctl_table.specs.Closes.{closed_plan, closed_outcome, was_late};

    /// Makes a plan the bay's, where it stands. It takes no memory.
    pub fn fill_plan(&self, plan: &mut Plan)
        ensures { plan_of plan.new ≡ closed_plan self.now }
    {
        self.plan.fill(plan);
    }

    /// Makes an outcome that which the words showed at the end, where it stands. It takes no memory.
    pub fn fill_outcome(&self, outcome: &mut Outcome)
        ensures { outcome_of outcome.new ≡ closed_outcome self.now }
    {
        self.outcome.fill(outcome);
    }

    /// Whether the post that the bay was closed with was late.
    pub fn late(&self) -> bool
        ensures late { result ≡ was_late self.now }
        ensures shows { ∥ ClosedShows (closed_plan self.now) (closed_outcome self.now) (was_late self.now) ∥₁ }
    {
        self.late
    }
}
