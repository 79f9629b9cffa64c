//! Tables that tell at once which thread of a plan comes next.

ghost use Rattle.rendezvous_steps.specs.Plan.{Plan as PlanOf};

/// Which threads of a plan come next. Where a table has no entry, the plan's threads are gone through.
#[derive(Clone, Copy)]
pub struct Links<'a> {
    /// By thread: the next thread of its group that takes part.
    pub members: &'a [Option<u16>],
    /// By thread: the first Offline thread from it on.
    pub offline: &'a [Option<u16>],
    /// How many threads are Offline.
    pub offline_count: Option<u16>,
}

impl Links<'_> {
    ghost use Rattle.ctl_thread.specs.Links.{Linked};

    /// Tables without entries.
    #[inline(always)]
    pub fn none() -> Links<'static>
        ensures { (plan : PlanOf) → Linked plan result }
    {
        Links {
            members: &[],
            offline: &[],
            offline_count: None,
        }
    }
}
