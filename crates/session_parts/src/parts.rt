//! The machine, the region and the cache of a session.

ghost use Rattle.std.specs.Prelude.{◌≡◌, ◌<◌, ◌≤◌, IfOk, length};
ghost use Rattle.uc_topology.specs.Stated.{group_count, IsPartition};
ghost use Rattle.machine_steps.specs.Hardware.{setting_of as stated_setting};
ghost use Rattle.hw_machine.specs.Machine.{setting_of as machine_setting};
ghost use Rattle.patch_pool.specs.Pool.{patches_of, blocks_in};
ghost use Rattle.early_load.specs.Caches.{groups_of, first_block};
ghost use Rattle.session_steps.specs.State.{opening_state};

use early_load::PatchCache;
use hw_machine::{Machine, Power, ThreadState};
use patch_pool::{PatchId, PatchPool};
use std::alloc::Global;
use uc_bytes::NoMemory;
use uc_topology::Topology;

/// The machine that a topology states, the region of patches, and the patch that each group caches. It is large, so
/// keep it in one place.
#[derive(Debug, Drop)]
pub struct Parts {
    pub(crate) topology: Topology,
    pub(crate) machine: Machine,
    pub(crate) pool: PatchPool,
    pub(crate) cache: PatchCache,
    pub(crate) patience: u32,
    ghost states: { machine_setting machine ≡ stated_setting topology.stated },
    ghost groups: { groups_of cache ≡ (machine_setting machine).groups },
}

impl Parts {
    ghost use Rattle.session_parts.specs.Parts.{setting_of, state_of};

    /// The parts of a session before its first command, with a region of `pool` blocks, 1 to 65,536, in which a thread
    /// of a load waits for `patience` polls.
    pub fn new(
        alloc: Global,
        topology: &Topology,
        pool: u32,
        patience: u32,
    ) -> Result<Parts, NoMemory>
        requires some { 0 < pool }
        requires few { pool ≤ 65536 }
        ensures setting { IfOk result
            (λ parts. setting_of parts ≡ record { machine = topology.now; blocks = pool; patience = patience }) }
        ensures opening { IfOk result (λ parts. state_of parts ≡ opening_state (setting_of parts)) }
    {
        let pool = PatchPool::new(alloc, pool)?;
        let machine = Machine::new(topology);
        let cache = PatchCache::new(machine.groups());
        Ok(Parts {
            topology: topology.copy(),
            machine,
            pool,
            cache,
            patience,
        })
    }

    /// The topology. Its contract says also that its cores are a partition of its threads.
    pub fn topology(&self) -> &Topology
        ensures machine { result.now ≡ (setting_of self.now).machine }
        ensures partition { IsPartition (setting_of self.now).machine.stated }
    {
        // Read for its contract: every thread is on a core of the machine, and every core in a group.
        let _threads = self.topology.threads();
        &self.topology
    }

    /// The revision of a group.
    pub fn rev(&self, g: u16) -> u32
        requires { g < group_count (setting_of self.now).machine.stated.cores }
        ensures { result ≡ (state_of self.now).hardware.rev g }
    {
        self.machine.rev(g)
    }

    /// What a thread does.
    pub fn state(&self, t: u16) -> ThreadState
        requires { t < length (setting_of self.now).machine.stated.threads }
        ensures { result ≡ (state_of self.now).hardware.thread t }
    {
        self.machine.state(t)
    }

    /// Whether the machine is powered.
    pub fn power(&self) -> Power
        ensures { result ≡ (state_of self.now).hardware.power }
    {
        self.machine.power()
    }

    /// The region.
    pub fn pool(&self) -> &PatchPool
        ensures patches { patches_of result.now ≡ (state_of self.now).patches }
        ensures blocks { blocks_in result.now ≡ (setting_of self.now).blocks }
    {
        &self.pool
    }

    /// The patch that a group caches.
    pub fn cached(&self, g: u16) -> Option<PatchId>
        requires { g < group_count (setting_of self.now).machine.stated.cores }
        ensures { first_block result ≡ (state_of self.now).cached g }
    {
        self.cache.cached(g)
    }
}
