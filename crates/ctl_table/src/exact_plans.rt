//! A plan in tables of exact length.

use crate::exact_tables::ExactTable;
use ctl_words::Plan;
use rendezvous_steps::Kind;
use std::alloc::Global;
use uc_bytes::NoMemory;

/// A plan in no more memory than its threads and groups need. `kind` and `group` go by thread, the tables after them by
/// group.
#[derive(Drop)]
pub struct ExactPlan {
    pub threads: u16,
    pub kind: ExactTable<Kind>,
    pub group: ExactTable<u16>,
    pub primary: ExactTable<u16>,
    pub offer: ExactTable<Option<u32>>,
    pub refuse: ExactTable<bool>,
    pub rev0: ExactTable<u32>,
    pub patience: u32,
}

impl ExactPlan {
    ghost use Rattle.std.specs.Prelude.{◌≡◌, IfOk};
    ghost use Rattle.ctl_words.specs.Plans.{plan_of};
    ghost use Rattle.ctl_table.specs.Exact.{exact_plan_of};

    /// The same plan. It answers want of memory and nothing else.
    pub fn of(alloc: Global, plan: &Plan) -> Result<ExactPlan, NoMemory>
        ensures { IfOk result (λ exact. exact_plan_of exact ≡ plan_of plan.now) }
    {
        Ok(ExactPlan {
            threads: plan.threads,
            kind: ExactTable::of(alloc, &plan.kind)?,
            group: ExactTable::of(alloc, &plan.group)?,
            primary: ExactTable::of(alloc, &plan.primary)?,
            offer: ExactTable::of(alloc, &plan.offer)?,
            refuse: ExactTable::of(alloc, &plan.refuse)?,
            rev0: ExactTable::of(alloc, &plan.rev0)?,
            patience: plan.patience,
        })
    }

    /// Makes a plan the same as this one, where it stands. It takes no memory.
    pub fn fill(&self, plan: &mut Plan)
        ensures { plan_of plan.new ≡ exact_plan_of self.now }
    {
        plan.threads = self.threads;
        self.kind.fill(&mut plan.kind);
        self.group.fill(&mut plan.group);
        self.primary.fill(&mut plan.primary);
        self.offer.fill(&mut plan.offer);
        self.refuse.fill(&mut plan.refuse);
        self.rev0.fill(&mut plan.rev0);
        plan.patience = self.patience;
    }
}
