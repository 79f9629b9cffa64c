//! What the rendezvous of a late microcode load is, with no word, phase, counter or poll: sets of threads, one stage
//! for all, and for each group a place and a revision. After Linux 6.7 arch/x86/kernel/cpu/microcode/core.c in outline.
//! `specs/` has:
//!
//! - `Round`: the state. `RoundItems`, `RoundEnds`: the items of a thread, each with its condition and its change.
//!   `RoundStep`: which item may answer an event.
//! - `Safe`: what is safe of a state.
//! - `Run`: a run over the events of a schedule. `Excluded`: no thread of a group runs ordinary code while the group is
//!   written.
//! - `Outcome`: what is left of a rendezvous. `Verdict`: what a load answers for it.
#![tactic(auto)]
