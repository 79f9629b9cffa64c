//! Laws of the entries of update files, proved of their definitions alone: bytes have one reading or one first fault, a
//! list of files has one list of entries, and a core is offered just one entry or none. Each law is the contract of a
//! function that does nothing; crates above cite the lemmas of `proofs/`.
#![tactic(auto)]

mod laws;

pub use laws::{just_one_offer, one_list_of_entries, reading_or_fault};
