//! The cache of patches.

ghost use Rattle.std.specs.Prelude.{◌≡◌, ◌<◌, ◌≤◌, true, Some, length};
ghost use Rattle.region_steps.specs.Region.{begins_at};
ghost use Rattle.machine_steps.specs.Hardware.{put};
ghost use Rattle.machine_steps.specs.Puts.{is_cached, swept};
ghost use Rattle.patch_pool.specs.Pool.{patches_of, blocks_in};

use crate::patches::begins_at;
use arrayvec::ArrayVec;
use patch_pool::{PatchId, PatchPool};

/// Which patch of a region each group caches. The number of groups is that given to `new`, and numbers of groups are
/// below it in all calls.
#[derive(Debug, Drop)]
pub struct PatchCache {
    patches: ArrayVec<Option<PatchId>, 256>,
    ghost few: { length patches.items ≤ 256 },
}

impl PatchCache {
    ghost use Rattle.early_load.specs.Caches.{first_block, groups_of, cached_of, nothing_cached, place_at, swept_at};
    ghost use Rattle.early_load.specs.Caches.{CachesHold, HoldsJustCached};

    /// A cache of so many groups, of which none caches a patch.
    pub fn new(groups: u16) -> PatchCache
        requires { groups ≤ 256 }
        ensures size { groups_of result ≡ groups }
        ensures none { cached_of result ≡ nothing_cached }
    {
        let mut patches = ArrayVec::new();
        for _group in 0..groups {
            patches.push(None);
        }
        PatchCache { patches }
    }

    /// The number of groups.
    pub fn groups(&self) -> u16
        ensures value { result ≡ groups_of self.now }
        ensures few { result ≤ 256 }
    {
        self.patches.len() as u16
    }

    /// The patch that a group caches.
    pub fn cached(&self, g: u16) -> Option<PatchId>
        requires { g < groups_of self.now }
        ensures { first_block result ≡ cached_of self.now g }
    {
        self.patches[usize::from(g)]
    }

    /// Lets a group cache a patch.
    pub fn keep(&mut self, g: u16, id: PatchId)
        requires { g < groups_of self.old }
        ensures kept { cached_of self.new ≡ put (cached_of self.old) g (Some id.0) }
        ensures size { groups_of self.new ≡ groups_of self.old }
    {
        self.patches[usize::from(g)] = Some(id);
    }

    /// Lets each group cache the patch in its place, or none.
    pub(crate) fn keep_all(&mut self, places: ArrayVec<Option<PatchId>, 256>)
        requires { length places.items ≡ groups_of self.old }
        ensures kept { cached_of self.new ≡ place_at places.items }
        ensures size { groups_of self.new ≡ groups_of self.old }
    {
        self.patches = places;
    }

    /// Whether a group caches the patch that begins at a block.
    fn caches(&self, block: u32) -> bool
        ensures { result ≡ is_cached (groups_of self.now) (cached_of self.now) block }
    {
        for g in 0..self.groups() {
            if begins_at(self.cached(g), block) {
                return true;
            }
        }
        false
    }

    /// Frees each patch of the region that no group caches. Where each cached patch is held, the region then holds just
    /// these. The blocks are gone through up to the last patch.
    pub fn sweep(&self, pool: &mut PatchPool)
        ensures swept { patches_of pool.new ≡ swept (groups_of self.now) (cached_of self.now) (patches_of pool.old) }
        ensures just_cached { CachesHold (groups_of self.now) (patches_of pool.old) (cached_of self.now) →
            HoldsJustCached (groups_of self.now) (patches_of pool.new) (cached_of self.now) }
        ensures size { blocks_in pool.new ≡ blocks_in pool.old }
    {
        let mut left = pool.held();
        for block in 0..pool.blocks() {
            if left == 0 {
                return;
            }
            if pool.holds(PatchId(block)) {
                left -= 1;
                self.sweep_at(pool, PatchId(block));
            }
        }
    }

    /// Frees a patch of the region that no group caches.
    fn sweep_at(&self, pool: &mut PatchPool, id: PatchId)
        requires { begins_at (patches_of pool.old) id.0 ≡ true }
        ensures swept { patches_of pool.new
            ≡ swept_at (groups_of self.now) (cached_of self.now) (patches_of pool.old) id.0 }
        ensures size { blocks_in pool.new ≡ blocks_in pool.old }
    {
        if !self.caches(id.0) {
            pool.free(id);
        }
    }
}
