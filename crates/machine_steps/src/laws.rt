//! Laws of the definitions: each is the contract of a function that does nothing.

ghost use Rattle.machine_steps.specs.Laws.{CallsNeverLower, BringUpsNeverLower, SuspendsLower, RefusalsKeep};

/// No call but suspend lets the revision of a group fall, and no bring-up does. A suspend lets each fall to the
/// firmware's.
pub fn only_suspend_lets_a_revision_fall()
    ensures calls { CallsNeverLower }
    ensures bring_ups { BringUpsNeverLower }
    ensures suspend { SuspendsLower }
{}

/// A refusal leaves the machine as it was.
pub fn a_refusal_changes_nothing()
    ensures { RefusalsKeep }
{}
