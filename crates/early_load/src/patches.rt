//! Patches by their ids.

ghost use Rattle.std.specs.Prelude.{◌≡◌};
ghost use Rattle.machine_steps.specs.Puts.{is_at};
ghost use Rattle.region_steps.specs.Region.{take_out};
ghost use Rattle.patch_pool.specs.Pool.{patches_of, blocks_in};
ghost use Rattle.early_load.specs.Caches.{first_block};

use patch_pool::{PatchId, PatchPool};

/// Whether the patch is there, and begins at a block.
pub(crate) fn begins_at(patch: Option<PatchId>, block: u32) -> bool
    ensures { result ≡ is_at block (first_block patch) }
{
    match patch {
        Some(id) => id.0 == block,
        None => false,
    }
}

/// Frees the patch that begins at a block, if there is one.
pub(crate) fn free_at(pool: &mut PatchPool, block: u32)
    ensures freed { patches_of pool.new ≡ take_out (patches_of pool.old) block }
    ensures size { blocks_in pool.new ≡ blocks_in pool.old }
{
    let id = PatchId(block);
    if pool.holds(id) {
        pool.free(id);
    }
}
