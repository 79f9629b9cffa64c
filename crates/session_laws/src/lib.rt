//! Laws of sessions, proved of their definition alone: each is the contract of a function that does nothing.
#![tactic(auto)]

ghost use Rattle.session_laws.specs.Laws.{RefusalsKeep, NeverFalls};
ghost use Rattle.session_laws.specs.Lent.{BootsLend, LoadsLend};
ghost use Rattle.session_laws.specs.Plans.{PlansSound};
ghost use Rattle.session_laws.specs.Standing.{OpeningStands, StepsStand, SessionsStand};

use machine_steps::only_suspend_lets_a_revision_fall;

/// A refusal leaves the machine, the region and what the groups cache as they were.
pub fn a_refusal_changes_nothing()
    ensures { RefusalsKeep }
{}

/// No command but a suspend lets a group's revision fall.
pub fn only_a_suspend_lets_a_revision_fall()
    ensures { NeverFalls }
{
    only_suspend_lets_a_revision_fall();
}

/// Before the first command a session's state stands, and each command leads from a state that stands to one that does:
/// while power is on thread 0 is up, and the region holds just the patches that groups cache.
pub fn each_state_stands()
    ensures opening { OpeningStands }
    ensures steps { StepsStand }
    ensures sessions { SessionsStand }
{}

/// In a state that stands, a load that finds all threads that it needs, offers something and puts each offer into the
/// region sets out with a plan that a rendezvous may run with.
pub fn each_plan_is_sound()
    ensures { PlansSound }
{}

/// Once the patches of all offers were put, each group that is offered an entry is lent a patch with the entry's bytes.
pub fn each_offer_is_lent()
    ensures boot { BootsLend }
    ensures load { LoadsLend }
{}
