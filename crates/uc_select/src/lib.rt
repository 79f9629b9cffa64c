//! Which entry of a catalogue a core is offered: the first of the greatest revision among those that fit the core and are
//! above the revision that it runs. `entry_model` says what that is; here the catalogue is searched, in one pass over
//! its entries for each core. Nothing here takes memory.
#![tactic(auto)]

mod choice;
mod fit;

pub use choice::{fill_offers, offer, offers};
pub use entry_model::CoreFacts;
pub use fit::{fits, is_safe};
