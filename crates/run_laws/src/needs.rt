//! Why the laws have their premises and bounds.

ghost use Rattle.run_laws.specs.Needed.{PaddedIsNeeded, TwoAThreadAreFew, SoundIsNeeded};

/// Where threads past a plan's last take part, more items count than 20 for each thread and 8. For plans whose tables
/// end with their last thread, 2 for each thread and 8 would be too few.
pub fn counts_need_their_bound()
    ensures padded { PaddedIsNeeded }
    ensures few { TwoAThreadAreFew }
{}

/// Where an offer may be below what runs, a run may let a revision fall.
pub fn revisions_need_sound_plans()
    ensures { SoundIsNeeded }
{}
