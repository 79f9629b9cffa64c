//! A machine is booted.

ghost use Rattle.std.specs.Prelude.{◌≡◌, true, IsTrue, length, MatchResult, IfOk};
ghost use Rattle.region_steps.specs.Region.{no_patches};
ghost use Rattle.machine_steps.specs.Hardware.{is_off};
ghost use Rattle.hw_machine.specs.Machine.{setting_of, hardware_of};
ghost use Rattle.patch_pool.specs.Pool.{patches_of, blocks_in};
ghost use Rattle.early_load.specs.Caches.{groups_of, cached_of, nothing_cached, HoldsJustCached};
ghost use Rattle.early_load.specs.Puts.{AreEntries, puts_of};
ghost use Rattle.early_load.specs.Boots.{State, IsBooted, IsRefused};

use crate::answers::BootAnswer;
use crate::cache::PatchCache;
use crate::coming_up::bring_up_wanted;
use crate::puts::put_offers;
use crate::wanted::Wanted;
use arrayvec::ArrayVec;
use hw_machine::Machine;
use machine_steps::{BringUp, Power};
use patch_pool::PatchPool;
use uc_catalog::Catalog;

/// Boots a machine that is off: puts what each group is offered, lets the groups cache it, powers on, and brings every
/// thread up, in ascending order. It answers `Booted` exactly where the machine is not off, and `PoolFull` where an
/// entry finds no room; all is then as before. Where the machine is off the pool and the cache are empty; the cache has
/// the machine's groups, and there is one offer, an entry of the catalogue or none, for each; the catalogue keeps the
/// files' bytes. Afterwards the pool holds just the cached patches.
pub fn boot(
    machine: &mut Machine,
    catalog: &Catalog,
    offers: &[Option<u32>],
    pool: &mut PatchPool,
    cache: &mut PatchCache,
) -> Result<ArrayVec<BringUp, 256>, BootAnswer>
    requires groups { groups_of cache.old ≡ (setting_of machine.old).groups }
    requires offers { length offers.now ≡ (setting_of machine.old).groups }
    requires known { AreEntries catalog.now offers.now }
    requires keeps { IsTrue catalog.now.keeps }
    requires empty { is_off (hardware_of machine.old).power ≡ true → patches_of pool.old ≡ no_patches }
    requires none_cached { is_off (hardware_of machine.old).power ≡ true → cached_of cache.old ≡ nothing_cached }
    ensures answer { let old : State =
        record { hardware = hardware_of machine.old; patches = patches_of pool.old; cached = cached_of cache.old } in
        let new : State =
        record {
          hardware = hardware_of machine.new;
          patches = patches_of pool.new;
          cached = cached_of cache.new;
        } in
        let row = puts_of (blocks_in pool.old) catalog.now offers.now (patches_of pool.old) in
        MatchResult result (λ ups. IsBooted (setting_of machine.old) row offers.now old new ups.items)
        (λ answer. IsRefused row (hardware_of machine.old) answer × (new ≡ old)) }
    ensures just_cached { IfOk result
        (λ _. HoldsJustCached (groups_of cache.new) (patches_of pool.new) (cached_of cache.new)) }
    ensures same_setting { setting_of machine.new ≡ setting_of machine.old }
    ensures same_groups { groups_of cache.new ≡ groups_of cache.old }
    ensures size { blocks_in pool.new ≡ blocks_in pool.old }
{
    if machine.power() != Power::Off {
        return Err(BootAnswer::Booted);
    }
    let mut places = ArrayVec::new();
    match put_offers(catalog, offers, pool, &mut places) {
        Ok(()) => {}
        Err(full) => return Err(BootAnswer::PoolFull(full.needed)),
    }
    cache.keep_all(places);
    match machine.power_on() {
        Ok(()) => Ok(bring_up_wanted(machine, cache, pool, Wanted::Every)),
        Err(_) => Err(BootAnswer::Booted),
    }
}
