//! Plans that the tests share.

use arrayvec::ArrayVec;
use ctl_words::Plan;
use rendezvous_steps::Kind;

pub const OLD: u32 = 0xb4;

pub const NEW: u32 = 0xf0;

/// Two threads on each core, of which the second is of this kind. Each core runs the old revision and is offered the
/// new one.
pub fn pairs(cores: u16, second: Kind, patience: u32) -> Plan {
    let mut plan = Plan {
        threads: 0,
        kind: ArrayVec::new(),
        group: ArrayVec::new(),
        primary: ArrayVec::new(),
        offer: ArrayVec::new(),
        refuse: ArrayVec::new(),
        rev0: ArrayVec::new(),
        patience,
    };
    for core in 0..cores {
        let _ = plan.primary.try_push(plan.threads);
        let _ = plan.offer.try_push(Some(NEW));
        let _ = plan.refuse.try_push(false);
        let _ = plan.rev0.try_push(OLD);
        for kind in &[Kind::Online, second] {
            let _ = plan.kind.try_push(*kind);
            let _ = plan.group.try_push(core);
            plan.threads = plan.threads.saturating_add(1);
        }
    }
    plan
}
