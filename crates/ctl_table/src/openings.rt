//! What a bay begins with.

ghost use Rattle.std.specs.Prelude.{◌≡◌, IfOk};
ghost use Rattle.ctl_words.specs.Plans.{plan_of, IsSound};
ghost use Rattle.ctl_table.specs.Openings.{opening_at, opening_row};

use ctl_words::Plan;
use std::alloc::Global;
use uc_bytes::NoMemory;

/// What the words hold when the rendezvous begins, place by place. It answers want of memory and nothing else.
pub fn opening_words(alloc: Global, plan: &Plan) -> Result<Vec<u64>, NoMemory>
    requires { IsSound plan.now }
    ensures { IfOk result (λ words. words.items ≡ opening_row (plan_of plan.now)) }
{
    Ok(
        (0..plan.words())
            .map(
                |place: u32| -> u64
                    requires { IsSound plan.now }
                    ensures { result ≡ opening_at (plan_of plan.entry.now) place }
                { opening_at(plan, place) },
            )
            .collect(alloc)?,
    )
}

/// What the word at a place holds when the rendezvous begins: how many threads are to arrive, the revisions of the
/// groups, and else 0.
fn opening_at(plan: &Plan, place: u32) -> u64
    requires { IsSound plan.now }
    ensures { result ≡ opening_at (plan_of plan.now) place }
{
    let first = 3 + 3 * u32::from(plan.threads);
    if place == 0 {
        u64::from(plan.online())
    } else if first <= place && place < first + u32::from(plan.groups()) {
        u64::from(plan.rev0_of((place - first) as u16))
    } else {
        0
    }
}
