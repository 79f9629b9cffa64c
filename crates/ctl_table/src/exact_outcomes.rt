//! An outcome in tables of exact length.

use crate::exact_tables::ExactTable;
use ctl_words::Plan;
use rendezvous_steps::End;
use std::alloc::Global;
use uc_bytes::NoMemory;
use uc_rendezvous::Outcome;

/// What is left of a rendezvous, in no more memory than its threads and groups need. `ends` goes by thread, `revs` by
/// group.
#[derive(Drop)]
pub struct ExactOutcome {
    pub decide: u64,
    pub ends: ExactTable<End>,
    pub revs: ExactTable<u32>,
}

impl ExactOutcome {
    ghost use Rattle.std.specs.Prelude.{◌≡◌, IfOk};
    ghost use Rattle.ctl_words.specs.Plans.{plan_of};
    ghost use Rattle.uc_rendezvous.specs.Outcomes.{outcome_of};
    ghost use Rattle.ctl_table.specs.Exact.{exact_outcome_of, HasRoom};

    /// The outcome of a rendezvous of no thread, with room for that of a plan. It answers want of memory and nothing
    /// else.
    pub fn with_room(alloc: Global, plan: &Plan) -> Result<ExactOutcome, NoMemory>
        ensures { IfOk result (HasRoom (plan_of plan.now)) }
    {
        Ok(ExactOutcome {
            decide: 0,
            ends: ExactTable::with_room(alloc, plan.threads)?,
            revs: ExactTable::with_room(alloc, plan.groups())?,
        })
    }

    /// Makes an outcome the same as this one, where it stands. It takes no memory.
    pub fn fill(&self, outcome: &mut Outcome)
        ensures { outcome_of outcome.new ≡ exact_outcome_of self.now }
    {
        outcome.decide = self.decide;
        self.ends.fill(&mut outcome.ends);
        self.revs.fill(&mut outcome.revs);
    }
}
