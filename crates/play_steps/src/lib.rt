//! What a rendezvous comes to over a list of events, and how far it is from its end. `specs/` has:
//!
//! - `Play`: the items of the events, and the moments between them.
//! - `Rank`: how many steps that count are left to a thread, at most.
//!
//! Both go by the step table alone, from any moment. `proofs/Play` says what more events come to.
#![tactic(auto)]
