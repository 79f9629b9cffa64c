//! The tables of a machine as they are made.

ghost use Rattle.std.specs.Prelude.{◌≡◌, ◌≤◌, length, map, replicate};
ghost use Rattle.std.specs.List.{range_with_len};
ghost use Rattle.uc_topology.specs.Stated.{AreGroups, group_count, group_facts, thread_groups};
ghost use Rattle.machine_steps.specs.Hardware.{is_up};

use arrayvec::ArrayVec;
use machine_steps::ThreadState;
use uc_topology::Topology;

/// The group of each thread. Its contract says also that the topology's groups are a partition.
pub(crate) fn groups_of(topology: &Topology) -> ArrayVec<u16, 256>
    ensures items { result.items ≡ thread_groups topology.now.stated }
    ensures few { length result.items ≤ 256 }
    ensures known { AreGroups topology.now.stated }
{
    let mut groups = ArrayVec::new();
    for thread in 0..topology.threads() {
        groups.push(topology.group_of(thread));
    }
    groups
}

/// The revision that the firmware gives each group.
pub(crate) fn firmware_revisions(topology: &Topology) -> ArrayVec<u32, 256>
    ensures items { result.items
        ≡ map (λ g. (group_facts topology.now.stated.cores g).rev)
        (range_with_len 0 (group_count topology.now.stated.cores)) }
    ensures few { length result.items ≤ 256 }
{
    let mut revisions = ArrayVec::new();
    for group in 0..topology.groups() {
        revisions.push(topology.facts(group).rev);
    }
    revisions
}

/// So many times the same.
pub(crate) fn filled<T: Copy + Default + Drop>(count: usize, value: T) -> ArrayVec<T, 256>
    requires { count ≤ 256 }
    ensures { result.items ≡ replicate count value }
{
    let mut table = ArrayVec::new();
    for _place in 0..count {
        table.push(value);
    }
    table
}

/// The same once more.
pub(crate) fn copied(table: &[u32]) -> ArrayVec<u32, 256>
    requires { length table.now ≤ 256 }
    ensures { result.items ≡ table.now }
{
    let mut copy = ArrayVec::new();
    copy.try_extend_from_slice(table).unwrap();
    copy
}

/// Which threads are up.
pub(crate) fn up_threads(threads: &[ThreadState]) -> ArrayVec<bool, 256>
    requires { length threads.now ≤ 256 }
    ensures { result.items ≡ map is_up threads.now }
{
    let mut up = ArrayVec::new();
    for state in threads {
        up.push(state.is_up());
    }
    up
}
