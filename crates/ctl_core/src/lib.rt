//! A rendezvous that is simulated: a core that plays a schedule event by event.
//!
//! - `Core` does one event after another, each as `happens` of `rendezvous_steps` says, without memory. From the
//!   opening on each item is a step of the model, and each state is safe. An event is constant work: the threads of a
//!   group, and the Offline ones, are linked and counted once, when the core is made.
//! - `Scheduled` is the `Rendezvous` that plays a schedule on a core, and prints each item's line.
#![tactic(auto)]

mod chains;
mod cores;
mod item_lines;
mod laws;
mod looks;
mod moments;
mod ranges;
mod schedules;
mod stands;

pub use cores::Core;
pub use ctl_words::Plan;
pub use laws::{a_listed_run_is_played, enough_rounds_finish};
pub use ranges::are_in_range;
pub use rendezvous_steps::{Beat, End, Event, Item, ThreadResult, What};
pub use schedules::Scheduled;
pub use uc_rendezvous::{Outcome, Rendezvous, RunAnswer};
