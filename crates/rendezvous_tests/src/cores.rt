//! A core that is driven event by event.

use crate::plans::pairs;
use ctl_core::{Core, Event};
use rendezvous_steps::Kind;
use std::test::Fail;

/// What no line of a session shows: the lowest thread that can go on, and how many items counted.
#[test]
fn ready_and_spent(rt: HostRuntime) -> Result<(), Fail> {
    let plan = pairs(1, Kind::Online, 0);
    assert!(rt; plan.sound());
    let mut core = Core::new(rt.alloc(), &plan)?;
    for thread in [0, 1, 0] {
        assert!(rt; thread < core.threads());
        let _ = core.event(Event::Step(thread));
    }
    assert_eq!(rt; core.ready(), Some(1));
    assert_eq!(rt; core.finished(), Some(0));
    assert_eq!(rt; core.spent(), 3);
    Ok(())
}
