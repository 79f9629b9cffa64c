//! Whether beats are a plan's.

ghost use Rattle.std.specs.Prelude.{◌<◌, ◌↔◌, All, IsTrue};
ghost use Rattle.rendezvous_rule.specs.Runs.{BeatInRange};

use rendezvous_steps::Beat;

/// Whether each event of the beats is one of the first so many threads.
pub fn are_in_range(beats: &[Beat], threads: u16) -> bool
    ensures { IsTrue result ↔ All (BeatInRange threads) beats.now }
{
    beats.iter().all(|beat| is_in_range(*beat, threads))
}

fn is_in_range(beat: Beat, threads: u16) -> bool
    ensures { IsTrue result ↔ BeatInRange threads beat }
{
    match beat {
        Beat::Step(thread) | Beat::Timeout(thread) | Beat::Nmi(thread) | Beat::Run(thread) => thread
            < threads,
        Beat::Rounds(_) => true,
    }
}
