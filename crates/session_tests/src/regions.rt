//! The calls on a region of patches.
use patch_pool::{PatchId, PatchPool, PoolFull};
use std::test::Fail;

#[test]
fn the_lowest_free_run_that_is_long_enough_is_taken(rt: HostRuntime) -> Result<(), Fail> {
    let Ok(mut pool) = PatchPool::new(rt.alloc(), 4) else {
        return Err(Fail::from("no pool"));
    };
    assert_eq!(rt; pool.put(&[1; 1_500]), Ok(PatchId(0)));
    assert_eq!(rt; pool.put(&[2; 1_024]), Ok(PatchId(2)));
    assert_eq!(rt; pool.put(&[3; 1_025]), Err(PoolFull { needed: 2 }));
    assert_eq!(rt; pool.longest_free(), 1);
    assert!(rt; pool.holds(PatchId(0)));
    pool.free(PatchId(0));
    assert_eq!(rt; pool.longest_free(), 2);
    assert_eq!(rt; pool.put(&[4; 2_048]), Ok(PatchId(0)));
    assert!(rt; pool.holds(PatchId(2)));
    assert_eq!(rt; pool.bytes(PatchId(2)), [2; 1_024].as_slice());
    assert_eq!(rt; (pool.held(), pool.blocks()), (2, 4));
    Ok(())
}

#[test]
fn free_runs_that_touch_are_joined(rt: HostRuntime) -> Result<(), Fail> {
    let Ok(mut pool) = PatchPool::new(rt.alloc(), 4) else {
        return Err(Fail::from("no pool"));
    };
    for id in 0..4 {
        assert_eq!(rt; pool.put(&[5; 1_024]), Ok(PatchId(id)));
    }
    for (id, longest) in [(1, 1), (3, 1), (2, 3)] {
        assert!(rt; pool.holds(PatchId(id)));
        pool.free(PatchId(id));
        assert_eq!(rt; pool.longest_free(), longest);
    }
    assert_eq!(rt; pool.put(&[6; 3_072]), Ok(PatchId(1)));
    Ok(())
}
