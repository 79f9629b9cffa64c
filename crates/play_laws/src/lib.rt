//! Laws of what schedules come to, proved of the definitions. Each law is the contract of a function that does nothing.
//!
//! - `events`: every event keeps the rule between steps, and its item is a step of the model.
//! - `runs`: what holds of a whole run, over every list of events, and of its items and revisions.
//! - `stuck`: a rendezvous never gets stuck, and enough rounds bring it to its end.
//! - `outcomes`: what holds of every outcome, and which of them is Done.
//! - `needs`: without their premises, or with a closer bound, these laws would be false.
#![tactic(auto)]

mod events;
mod needs;
mod outcomes;
mod runs;
mod stuck;

pub use events::each_event_keeps_the_rule;
pub use needs::{eight_rounds_are_few, the_rule_is_needed};
pub use outcomes::{a_patient_schedule_is_done, an_outcome_in_time_is_done, the_end_is_unlisted};
pub use runs::{
    a_run_lowers_no_revision, each_run_holds, each_sound_plan_has_a_run, the_items_are_listed,
};
pub use stuck::{enough_rounds_end, some_thread_is_ready};
