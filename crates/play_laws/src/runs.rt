//! What holds of whole runs.

ghost use Rattle.std.specs.Prelude.{List, ℕ, Bool};
ghost use Rattle.rendezvous_steps.specs.declared.items.Item.{Item};
ghost use Rattle.rendezvous_rule.specs.Runs.{AlwaysRuns, RanGrows};
ghost use Rattle.play_laws.specs.Runs.{RunsHold, MomentsAreLawful};
ghost use Rattle.play_laws.specs.Outcomes.{PlaysAreListed};

/// The items of every list of events are those of a run of the model, through the states that are shown. Each of these
/// is safe, no ordinary code runs in a group while it is written, no revision falls, and few items count.
pub fn each_run_holds()
    ensures moments { MomentsAreLawful }
    ensures runs { RunsHold }
{}

/// The lines of the items of a schedule, and the outcome that its last state shows, are a run that lists its items.
pub fn the_items_are_listed()
    ensures { PlaysAreListed }
{}

/// Every sound plan has a run over any beats, whether or not it lists its items.
pub fn each_sound_plan_has_a_run()
    ensures { (line : Item → List ℕ) (lists : Bool) → AlwaysRuns line lists }
{}

/// In a run of a sound plan no group's revision falls.
pub fn a_run_lowers_no_revision()
    ensures { (line : Item → List ℕ) (lists : Bool) → RanGrows line lists }
{}
