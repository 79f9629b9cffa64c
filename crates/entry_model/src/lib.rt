//! What update files offer, as definitions: the entries of a list of files, and which of them a core is offered.
//!
//! An entry is an update of an Intel file or a patch of an AMD file. `specs/` says what the reading of a file is
//! (`Reading`), which entries files have, in the order of files and of places (`Entry`), and which of them fits a core, is
//! admissible for it at a revision, and is offered to it (`Selection`): a maximum over the list of all entries. Which
//! entries fit and which is best follows Linux 6.7, `arch/x86/kernel/cpu/microcode`; the choice that a forced load asks
//! for a minimum revision is this project's own.
#![tactic(auto)]

mod facts;

pub use facts::{CoreFacts, EntryFacts};
