//! A law of plans: the contract of a function that does nothing.
ghost use Rattle.rendezvous_steps.specs.Padded.{Padded};
ghost use Rattle.ctl_words.specs.declared.plans.Plan.{Plan as Tables};
ghost use Rattle.ctl_words.specs.Plans.{plan_of, IsSound};

/// Past its tables' ends a sound plan is as the definitions take it: no thread takes part, and no group has an offer or
/// a primary that takes part.
pub fn tables_end()
    ensures { (plan : Tables) → IsSound plan → Padded (plan_of plan) }
{}
