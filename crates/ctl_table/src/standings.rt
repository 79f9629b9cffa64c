//! What the table knows of each post, and what its steps leave of that. No value of these types is made at run time.

ghost use Rattle.rendezvous_steps.specs.declared.steps.How.{How};
ghost use Rattle.rendezvous_steps.specs.declared.steps.How.TheVariants.{Step, Timeout};
ghost use Rattle.ctl_table.specs.declared.standings.View.TheVariants.{Spent as SpentView};
ghost use Rattle.ctl_table.specs.Holds.{Holds};
ghost use Rattle.ctl_table.specs.Standings.{opening_view, left_of, right_of, joined_view, turned};

use atomic_table::{Join, Play, Split, TableRule};
use ctl_words::Plan;
use rendezvous_steps::Local;
use std::marker::PhantomData;

/// What the table knows of a post. The plan stands in each, since a step's `Play` sees nothing else of the table.
pub struct Standing {
    pub plan: Plan,
    pub thread: u16,
    pub local: Local,
    pub given: u16,
    pub joined: u16,
    pub late: bool,
}

/// A place among the table's views.
pub enum View {
    /// Its post was joined.
    Spent,
    Sits(Standing),
}

/// The rule of the table.
pub struct Rules;

impl TableRule<(), View, Plan> for Rules {
    ghost holds = { Holds };

    ghost first = { opening_view };
}

/// How a thread steps.
pub trait Manner {
    ghost how: { How };
}

pub struct InTime;

impl Manner for InTime {
    ghost how = { Step };
}

/// It has waited too long.
pub struct TooLate;

impl Manner for TooLate {
    ghost how = { Timeout };
}

/// A thread's operation, which leaves the thread where the step table says.
pub struct Turn<H> {
    manner: PhantomData<H>,
}

impl<H: Manner> Play<(), View> for Turn<H> {
    ghost then = { turned H.how };
}

/// Thread 0's post gives the next thread its post.
pub struct Handing;

impl Split<View> for Handing {
    ghost left = { left_of };

    ghost right = { right_of };
}

/// Thread 0's post takes in another.
pub struct Taking;

impl Join<View> for Taking {
    ghost both = { joined_view };

    ghost spent = { SpentView };
}
