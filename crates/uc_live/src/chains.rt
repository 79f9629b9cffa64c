//! All workers of a run.

ghost use Rattle.std.specs.Prelude.{◌≡◌, IsTrue};
ghost use Rattle.rendezvous_steps.specs.StepTable.{is_last};
ghost use Rattle.ctl_words.specs.Plans.{plan_of};
ghost use Rattle.ctl_table.specs.Posts.{plan_in, phase_of, IsOf};
ghost use Rattle.uc_live.specs.Chains.{Begun, Ended, Stays};

use crate::gates::Gate;
use crate::workers::Worker;
use ctl_table::{Bay, Plan, Post};
use std::sync::Wait;
use std::thread::{Threads, join};

/// Splits off the posts of the threads that have none yet, lets a worker step each in a thread of its own, and joins
/// them again. The side of a join that is sent cannot join itself, so the joins are a chain.
#[cycle(chain)]
pub fn work_all<G: Gate + Sync, R: Threads + Wait>(
    rt: &R,
    bay: &Bay,
    plan: &Plan,
    gate: &G,
    mut zero: Post,
) -> Post
    requires begun { Begun bay.now zero }
    requires plan { plan_of plan.now ≡ plan_in bay.now }
    ensures { Ended bay.now zero result }
{
    if zero.given() + 1 == plan.threads {
        let zero = work(bay, plan, gate, zero);
        return finish(rt, bay, plan, gate, zero);
    }
    let post = bay.split(&mut zero);
    let (post, mut zero) = join(
        rt,
        || -> Post
            requires ours { IsOf bay.now post }
            requires plan { plan_of plan.now ≡ plan_in bay.now }
            ensures { IsOf bay.entry.now result }
        { work(bay, plan, gate, post) },
        || -> Post
            requires begun { Begun bay.now zero }
            requires plan { plan_of plan.now ≡ plan_in bay.now }
            ensures { Ended bay.entry.now zero result }
        { work_all(rt, bay, plan, gate, zero) },
    );
    let post = finish(rt, bay, plan, gate, post);
    bay.join(&mut zero, post);
    zero
}

/// A worker's way, as far as the turns of a loop go.
fn work<G: Gate>(bay: &Bay, plan: &Plan, gate: &G, post: Post) -> Post
    requires ours { IsOf bay.now post }
    requires plan { plan_of plan.now ≡ plan_in bay.now }
    ensures ours { IsOf bay.now result }
    ensures stays { Stays post result }
{
    Worker { bay, plan, gate }.work(post)
}

/// The rest of a worker's way, if there is any.
fn finish<G: Gate, R: Wait>(rt: &R, bay: &Bay, plan: &Plan, gate: &G, post: Post) -> Post
    requires ours { IsOf bay.now post }
    requires plan { plan_of plan.now ≡ plan_in bay.now }
    ensures ours { IsOf bay.now result }
    ensures stays { Stays post result }
    ensures ended { IsTrue (is_last (phase_of result)) }
{
    Worker { bay, plan, gate }.finish(rt, post)
}
