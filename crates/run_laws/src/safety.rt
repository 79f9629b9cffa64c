//! What holds of the runs of the model, with no word and no phase.

ghost use Rattle.run_laws.specs.SafeRuns.{SafeRunsExclude, RunsNeverFall};

/// Where each state of a run is safe, no thread of a group runs ordinary code from the group's begin until its report.
pub fn a_safe_run_excludes()
    ensures { SafeRunsExclude }
{}

/// No run lets a group's revision fall.
pub fn a_run_never_falls()
    ensures { RunsNeverFall }
{}
