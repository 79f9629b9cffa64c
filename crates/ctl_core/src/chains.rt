//! The threads of a plan, each with the one that comes next.

ghost use Rattle.std.specs.Prelude.{◌≡◌, ◌+◌, ◌<◌, OnOk, None, replicate};
ghost use Rattle.rendezvous_steps.specs.Plan.{offline_from};
ghost use Rattle.ctl_words.specs.Plans.{plan_of, IsSound};
ghost use Rattle.ctl_thread.specs.Links.{LinksMembers, LinksOffline};
ghost use Rattle.ctl_core.specs.Chains.{Linking};

use ctl_thread::Links;
use ctl_words::Plan;
use std::alloc::Global;
use std::marker::Model;
use uc_bytes::NoMemory;

/// Which threads of a plan come next, in tables that are made once.
#[derive(Drop)]
pub struct Chains {
    /// By thread: the next thread of its group that takes part.
    members: Vec<Option<u16>>,
    /// By thread: the first Offline thread from it on.
    offline: Vec<Option<u16>>,
    /// How many threads are Offline.
    offline_count: u16,
    /// By group: the lowest thread so far, while the tables are made. It means nothing afterwards.
    lowest: Vec<Option<u16>>,
}

impl Model for Chains {
    ghost use Rattle.ctl_core.specs.Chains.{Tables};

    ghost Value = { Tables };

    ghost view = { λ a.
        record {
          members = a.members.items;
          offline = a.offline.items;
          offline_count = a.offline_count;
        } };
}

impl Chains {
    ghost use Rattle.rendezvous_steps.specs.Plan.{Plan as PlanOf};
    ghost use Rattle.ctl_thread.specs.Links.{Linked};
    ghost use Rattle.ctl_core.specs.Chains.{Chained};

    /// The tables of no plan. It takes no memory.
    pub fn none(alloc: Global) -> Chains {
        Chains {
            members: Vec::new(alloc),
            offline: Vec::new(alloc),
            offline_count: 0,
            lowest: Vec::new(alloc),
        }
    }

    /// Links the threads of a plan, in the room that there is, and takes memory only for more. It answers want of
    /// memory and nothing else; what the tables hold means nothing then.
    pub fn begin(&mut self, plan: &Plan) -> Result<(), NoMemory>
        requires { IsSound plan.now }
        ensures { OnOk result (Chained (plan_of plan.now) self.new) }
    {
        fill_members(&mut self.members, &mut self.lowest, plan)?;
        fill_offline(&mut self.offline, plan)?;
        self.offline_count = plan.offline();
        Ok(())
    }

    /// What the tables tell.
    #[inline(always)]
    pub fn links(&self) -> Links<'_>
        ensures { (plan : PlanOf) → Chained plan self.now → Linked plan result }
    {
        Links {
            members: self.members.as_slice(),
            offline: self.offline.as_slice(),
            offline_count: Some(self.offline_count),
        }
    }
}

/// By thread, the next thread of its group that takes part. The threads are gone through from the last down, and the
/// lowest so far of each group is kept.
fn fill_members(
    table: &mut Vec<Option<u16>>,
    lowest: &mut Vec<Option<u16>>,
    plan: &Plan,
) -> Result<(), NoMemory>
    requires { IsSound plan.now }
    ensures { OnOk result (LinksMembers (plan_of plan.now) table.new.items) }
{
    fill_nobody(table, plan.threads)?;
    fill_nobody(lowest, plan.groups())?;
    let mut thread = plan.threads;
    while thread > 0 {
        thread -= 1;
        link(plan, thread, table, lowest);
    }
    Ok(())
}

/// Links one thread to the lowest of its group after it.
fn link(plan: &Plan, thread: u16, table: &mut Vec<Option<u16>>, lowest: &mut Vec<Option<u16>>)
    requires sound { IsSound plan.now }
    requires linked { Linking (plan_of plan.now) table.old.items lowest.old.items (thread + 1) }
    ensures { Linking (plan_of plan.now) table.new.items lowest.new.items thread }
{
    let group = usize::from(plan.group_of(thread));
    table[usize::from(thread)] = lowest[group];
    if !plan.kind_of(thread).is_absent() {
        lowest[group] = Some(thread);
    }
}

/// By thread, the first Offline thread from it on.
fn fill_offline(table: &mut Vec<Option<u16>>, plan: &Plan) -> Result<(), NoMemory>
    ensures { OnOk result (LinksOffline (plan_of plan.now) table.new.items) }
{
    fill_nobody(table, plan.threads)?;
    let mut next = None;
    let mut thread = plan.threads;
    while thread > 0 {
        thread -= 1;
        next = or_this(plan, thread, next);
        table[usize::from(thread)] = next;
    }
    Ok(())
}

/// The thread, where it is Offline, or else the first after it.
fn or_this(plan: &Plan, thread: u16, next: Option<u16>) -> Option<u16>
    requires in_range { thread < plan.now.threads }
    requires next { next ≡ offline_from (plan_of plan.now) (thread + 1) }
    ensures { result ≡ offline_from (plan_of plan.now) thread }
{
    if plan.kind_of(thread).is_offline() {
        Some(thread)
    } else {
        next
    }
}

fn fill_nobody(table: &mut Vec<Option<u16>>, count: u16) -> Result<(), NoMemory>
    ensures { OnOk result (table.new.items ≡ replicate count None) }
{
    table.clear();
    table.resize(usize::from(count), None)?;
    Ok(())
}
