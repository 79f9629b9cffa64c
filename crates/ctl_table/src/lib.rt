//! The rendezvous on shared atomic words, for threads that really run.
//!
//! A `Bay` has the control words of one plan in an `atomic_table`. A `Post` is a thread's place at it, and whoever
//! holds the post steps it: one step is one atomic operation on one word, the one that the step table names for the
//! thread's state. It takes no memory, waits for nobody and tries no exchange again.
//!
//! Between any two operations, of whatever threads, the words and the posts meet the rule of the rendezvous
//! (`specs/Holds`). That a step keeps the rule, and is a step of the model, is one law on the step table, cited and not
//! proved again here; no step is told apart by its phase. When all posts are joined, `close` shows what the words came
//! to.
//!
//! - `bays`: the bay, and its making, splits, joins and end. `steps`: one step.
//! - `posts`: a post. `standings`: what the table knows of one, which has no bytes.
//! - `last`: the words of a bay that is closed, read into an outcome. `closed`: that outcome with its plan.
//! - `openings`: what a bay begins with. `copies`: a plan once more.
//! - `exact_tables`, `exact_plans`, `exact_outcomes`: what is kept of a bay that is closed, in tables of exact length.
//!   Their memory is taken when the bay is made.
#![tactic(auto)]

mod bays;
mod closed;
mod copies;
mod exact_outcomes;
mod exact_plans;
mod exact_tables;
mod last;
mod laws;
mod openings;
mod posts;
mod seen;
mod standings;
mod steps;

pub use bays::Bay;
pub use closed::Closed;
pub use ctl_words::Plan;
pub use laws::each_turn_keeps_the_table;
pub use posts::Post;
pub use rendezvous_steps::{End, Local, Phase, ThreadResult, What};
pub use seen::Seen;
pub use uc_rendezvous::Outcome;
