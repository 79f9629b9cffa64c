//! What a session is made of: the machine that a topology states, the region of patches, and what each group caches;
//! with the steps of its commands. A contract says what a step does by the definitions of `session_steps`.
//!
//! Nothing here prints, and no call but `Parts::new` takes memory.
#![tactic(auto)]

mod boot;
mod firmware;
mod load_tables;
mod loads;
mod offers;
mod parts;
mod plans;
mod presence;
mod rows;

pub use load_tables::LoadTables;
pub use parts::Parts;
