//! A rendezvous never gets stuck.

ghost use Rattle.play_laws.specs.Stuck.{NeverStuck, EnoughRounds, EnoughRoundsFinish};

/// Where the rule between steps holds and some thread is unfinished, some unfinished thread's own step is none that
/// waits, idles or runs ordinary code, whether or not another thread has halted.
pub fn some_thread_is_ready()
    ensures { NeverStuck }
{}

/// A schedule with 20 rounds for each thread, and 8, leaves no thread unfinished, whatever stands between the rounds.
pub fn enough_rounds_end()
    ensures over { EnoughRounds }
    ensures outcome { EnoughRoundsFinish }
{}
