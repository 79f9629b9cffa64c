//! Live runs.

use crate::plans::{NEW, pairs};
use ctl_table::{End, Outcome, ThreadResult};
use rendezvous_steps::Kind;
use std::test::Fail;
use uc_live::{LiveRun, OpenGate};

/// Whether the load went on, every first thread of a core wrote, and every second one came to this end.
fn all_wrote(outcome: &Outcome, second: End) -> bool {
    let mut fits = outcome.decide == 1;
    for (thread, end) in outcome.ends.as_slice().iter().enumerate() {
        let wanted = if thread % 2 == 0 {
            End::Left(ThreadResult::Updated)
        } else {
            second
        };
        fits = fits && *end == wanted;
    }
    for revision in outcome.revs.as_slice() {
        fits = fits && *revision == NEW;
    }
    fits
}

#[test]
fn patient_workers_load_every_core(rt: HostRuntime) -> Result<(), Fail> {
    let ends = [
        (Kind::Online, End::Left(ThreadResult::Okay)),
        (Kind::Offline, End::Left(ThreadResult::Offline)),
        (Kind::Absent, End::Absent),
    ];
    for cores in [1, 4, 16] {
        for (second, end) in &ends {
            let plan = pairs(cores, *second, u32::MAX);
            assert!(rt; plan.sound() && plan.threads <= 32);
            let mut live = LiveRun::new(&rt, rt.alloc(), &OpenGate);
            let mut outcome = Outcome::new();
            live.hold(rt.alloc(), &plan, &mut outcome)?;
            assert!(rt; all_wrote(&outcome, *end));
        }
    }
    Ok(())
}
