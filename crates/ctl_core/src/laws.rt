//! Laws of runs that print their items.

ghost use Rattle.ctl_core.specs.Laws.{ListedIsPlayed, EnoughRoundsFinish};

/// A plan and beats have one run that prints its items: its text is the lines of the items that the beats' events come
/// to, and its outcome is that of their last moment. So what is proved of schedules holds of each run that keeps the
/// contract.
pub fn a_listed_run_is_played()
    ensures { ListedIsPlayed }
{}

/// With 20 rounds for each thread, and 8, such a run leaves no thread unfinished, whatever stands between the rounds.
pub fn enough_rounds_finish()
    ensures { EnoughRoundsFinish }
{}
