//! Laws of whole runs of a rendezvous, proved of its definitions. Each law is the contract of a function that does
//! nothing.
//!
//! - `counts`: by the step table alone few items of a run count, and no thread makes many that nobody else sees.
//! - `safety`: by the model alone a run whose states are safe lets no thread run ordinary code while its group is
//!   written, and no run lets a revision fall.
//! - `needs`: without their premises, or with closer bounds, these laws would be false.
#![tactic(auto)]

mod counts;
mod needs;
mod safety;

pub use counts::{few_items_count, no_thread_makes_many_inner_items, ranks_fall};
pub use needs::{counts_need_their_bound, revisions_need_sound_plans};
pub use safety::{a_run_never_falls, a_safe_run_excludes};
