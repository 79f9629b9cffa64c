//! A step that is being taken.

ghost use Rattle.std.specs.Prelude.{◌<◌};
ghost use Rattle.ctl_words.specs.Plans.{plan_of, IsSound};
ghost use Rattle.ctl_thread.specs.Links.{Linked};

use crate::links::Links;
use ctl_words::Plan;
use rendezvous_steps::{How, Local};

/// What the outcome of one step goes by.
#[derive(Clone, Copy)]
pub struct Turn<'a> {
    pub plan: &'a Plan,
    pub links: Links<'a>,
    pub thread: u16,
    pub local: &'a Local,
    pub how: How,
    /// What the word of the operation held.
    pub found: u64,
    ghost sound: { IsSound plan.now },
    ghost in_range: { thread < plan.now.threads },
    ghost linked: { Linked (plan_of plan.now) links },
}
