//! Sample update files and machines, as tests of several crates read them. Nothing but tests uses this crate.
//!
//! An update is for the signature 0x906ea, of 2023-07-11, and its data are zeros; a container has a table of two rows and
//! patches of zeros. The checksum of an update that is pushed is computed here, apart from all code that checks it, and
//! the tests of this crate compare it with values from outside.
#![tactic(auto)]

mod containers;
mod topologies;
mod updates;
mod words;

pub use containers::{CONTAINER, SECTION, Section, push_head, push_section, two_containers};
pub use topologies::{ONE_PACKAGE, ONE_THREAD, TWO_THREADS};
pub use updates::{
    HEADER, SMALL, SmallUpdate, WITH_TABLE, large_update, push_update, update_without_sizes,
};
pub use words::{bytes_of, push_words};
