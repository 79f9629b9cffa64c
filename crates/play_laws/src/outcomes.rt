//! What the end of a rendezvous comes to.

ghost use Rattle.play_laws.specs.Outcomes.{EndedLaw};
ghost use Rattle.play_laws.specs.Patient.{InTimeIsDone, PatientIsDone};

/// Where the rule holds and each thread has come to its last phase, the outcome is one that a run may have. Where the
/// run is not late, it decided to go on and no thread halted.
pub fn the_end_is_unlisted()
    ensures { EndedLaw }
{}

/// An outcome of a run that is not late is Done, where no group with an offer refuses its write.
pub fn an_outcome_in_time_is_done()
    ensures { InTimeIsDone }
{}

/// A schedule without a timeout, with rounds enough, comes to Done, where no group with an offer refuses its write.
pub fn a_patient_schedule_is_done()
    ensures { PatientIsDone }
{}
