//! Offered entries are put into a region.

ghost use Rattle.std.specs.Prelude.{◌≡◌, ℕ, ◌<◌, ◌≤◌, IsTrue, length, None, Some, Err, MatchOption, IfOk, IfErr};
ghost use Rattle.region_steps.specs.Region.{Stands};
ghost use Rattle.patch_pool.specs.Pool.{patches_of, blocks_in};
ghost use Rattle.patch_pool.specs.Steps.{IsPut};
ghost use Rattle.early_load.specs.Caches.{place_at, HoldsPatch};
ghost use Rattle.early_load.specs.Puts.{offer_of, AreEntries, bytes_at, puts_of, ArePut, IsElsewhere, without};

use crate::patches::free_at;
use arrayvec::ArrayVec;
use patch_pool::{PatchId, PatchPool, PoolFull};
use uc_catalog::Catalog;

/// Puts the entry that each group is offered, in the order of the groups, and each entry once: groups with the same
/// offer share its patch. `places` then tells for each group the patch of its offer; where these are freed, the pool is
/// as before. There are at most 256 groups, and each offer is an entry of the catalogue, which keeps the files' bytes.
/// At the first entry for which no run of blocks is long enough the pool is full; what was put in this call is then
/// freed again.
///
/// `places` is lent, and what it held is let go: who loads often clears and moves no list of 256 places so.
pub fn put_offers(
    catalog: &Catalog,
    offers: &[Option<u32>],
    pool: &mut PatchPool,
    places: &mut ArrayVec<Option<PatchId>, 256>,
) -> Result<(), PoolFull>
    requires few { length offers.now ≤ 256 }
    requires known { AreEntries catalog.now offers.now }
    requires keeps { IsTrue catalog.now.keeps }
    ensures put { IfOk result
        (λ _. ArePut (puts_of (blocks_in pool.old) catalog.now offers.now (patches_of pool.old)) offers.now
        (patches_of pool.new) places.new.items) }
    ensures held { IfOk result
        (λ _. (g first : ℕ) → place_at places.new.items g ≡ Some first → HoldsPatch (patches_of pool.new first)) }
    ensures others { IfOk result
        (λ _. (block : ℕ) → IsElsewhere places.new.items block →
        patches_of pool.new block ≡ patches_of pool.old block) }
    ensures back { IfOk result (λ _. without places.new.items (patches_of pool.new) ≡ patches_of pool.old) }
    ensures full { IfErr result
        (λ full. (puts_of (blocks_in pool.old) catalog.now offers.now (patches_of pool.old) ≡ Err full.needed)
        × (patches_of pool.new ≡ patches_of pool.old)) }
    ensures size { blocks_in pool.new ≡ blocks_in pool.old }
{
    places.clear();
    for g in 0..offers.len() {
        let entry = match offers[g] {
            Some(entry) => entry,
            None => {
                places.push(None);
                continue;
            }
        };
        if let Some(earlier) = first_offer(entry, offers, g) {
            let place = places[earlier];
            places.push(place);
            continue;
        }
        match put_entry(catalog, entry, pool) {
            Ok(id) => places.push(Some(id)),
            Err(full) => {
                take_back(places.as_slice(), pool);
                return Err(full);
            }
        }
    }
    Ok(())
}

/// The first of so many groups that is offered this entry.
fn first_offer(entry: u32, offers: &[Option<u32>], groups: usize) -> Option<usize>
    requires { groups ≤ length offers.now }
    ensures { MatchOption result ((g : ℕ) → g < groups → offer_of offers.now g ≡ Some entry → ⊥)
        (λ g. (g < groups) × (offer_of offers.now g ≡ Some entry)) }
{
    for g in 0..groups {
        if let Some(other) = offers[g] {
            if other == entry {
                return Some(g);
            }
        }
    }
    None
}

/// Puts an entry of a catalogue. One that takes more blocks than the region has finds no room.
fn put_entry(catalog: &Catalog, entry: u32, pool: &mut PatchPool) -> Result<PatchId, PoolFull>
    requires entry { entry < length catalog.now.entries }
    requires keeps { IsTrue catalog.now.keeps }
    ensures put { IsPut (patches_of pool.old) (patches_of pool.new) (blocks_in pool.old)
        (bytes_at catalog.now entry) result }
    ensures header { 48 ≤ length (bytes_at catalog.now entry) }
    ensures stand { Stands (patches_of pool.old) (blocks_in pool.old) }
    ensures size { blocks_in pool.new ≡ blocks_in pool.old }
{
    let bytes = catalog.bytes_of(entry);
    let needed = (bytes.len() + 1023) / 1024;
    if needed > pool.blocks() as usize {
        return Err(PoolFull {
            needed: needed as u32,
        });
    }
    pool.put(bytes)
}

/// Frees the patches that begin at these places.
pub fn take_back(places: &[Option<PatchId>], pool: &mut PatchPool)
    ensures freed { patches_of pool.new ≡ without places.now (patches_of pool.old) }
    ensures size { blocks_in pool.new ≡ blocks_in pool.old }
{
    for place in places {
        let id = match place {
            Some(id) => id,
            None => continue,
        };
        free_at(pool, id.0);
    }
}
