//! Threads that come up.

ghost use Rattle.std.specs.Prelude.{◌≡◌, ℕ, ◌<◌, true, Ok, Err, MatchResult, None, Some, if◌then◌else◌};
ghost use Rattle.machine_steps.specs.Hardware.{is_on, is_cold};
ghost use Rattle.machine_steps.specs.Calls.{may_come_up};
ghost use Rattle.machine_steps.specs.BringUps.{above, revision, brought, bring_up, bring_up_each, resume};
ghost use Rattle.machine_steps.specs.Puts.{patch_at};
ghost use Rattle.hw_machine.specs.Machine.{setting_of, hardware_of};
ghost use Rattle.patch_pool.specs.Pool.{patches_of};
ghost use Rattle.early_load.specs.Caches.{groups_of, cached_of, cached_patches, CachesHold};
ghost use Rattle.early_load.specs.Wanted.{wants, wanted_threads};

use crate::cache::PatchCache;
use crate::wanted::Wanted;
use arrayvec::ArrayVec;
use hw_machine::Machine;
use machine_steps::{BringUp, HotAnswer, Written};
use patch_pool::PatchPool;
use uc_bytes::word_at;

/// Brings a thread up that may come up. Where it is the first of its group since power-up, and the revision of the
/// group's cached patch, the word at byte 4, is above the group's, the group writes it, or refuses. The cache has the
/// machine's groups, and the pool holds each cached patch, with at least 8 bytes.
pub fn bring_up(machine: &mut Machine, cache: &PatchCache, pool: &PatchPool, t: u16) -> BringUp
    requires thread { t < (setting_of machine.old).threads }
    requires may { may_come_up (hardware_of machine.old) t ≡ Ok (hardware_of machine.old) }
    requires groups { groups_of cache.now ≡ (setting_of machine.old).groups }
    requires held { CachesHold (groups_of cache.now) (patches_of pool.now) (cached_of cache.now) }
    ensures brought { record { up = result; after = hardware_of machine.new }
        ≡ bring_up (setting_of machine.old) (cached_patches (patches_of pool.now) (cached_of cache.now))
        (hardware_of machine.old) t }
    ensures same_setting { setting_of machine.new ≡ setting_of machine.old }
{
    let group = machine.group_of(t);
    let newer = newer(machine.rev(group), cache, pool, group);
    let first = machine.come_up(t);
    match if_first(first, newer) {
        Some(new) => write(machine, t, group, new),
        None => BringUp {
            thread: t,
            rev: machine.rev(group),
            written: Written::No,
        },
    }
}

/// What the first thread of a group writes, and no other.
fn if_first(first: bool, newer: Option<u32>) -> Option<u32>
    ensures { result ≡ (if first then newer else None) }
{
    if first { newer } else { None }
}

/// The revision of a group's cached patch, where it is above this one.
fn newer(rev: u32, cache: &PatchCache, pool: &PatchPool, group: u16) -> Option<u32>
    requires group { group < groups_of cache.now }
    requires held { CachesHold (groups_of cache.now) (patches_of pool.now) (cached_of cache.now) }
    ensures { result ≡ above rev (patch_at (patches_of pool.now) (cached_of cache.now group)) }
{
    let id = cache.cached(group)?;
    let new = word_at(pool.bytes(id), 4);
    if new > rev { Some(new) } else { None }
}

/// Lets the group of a thread that came up write a revision above its own, or refuse it.
fn write(machine: &mut Machine, t: u16, group: u16, new: u32) -> BringUp
    requires group { group < (setting_of machine.old).groups }
    requires power { is_on (hardware_of machine.old).power ≡ true }
    requires above { (hardware_of machine.old).rev group < new }
    ensures brought { record { up = result; after = hardware_of machine.new }
        ≡ brought (hardware_of machine.old) t group (Some new) ((hardware_of machine.old).refuses group) }
    ensures same_setting { setting_of machine.new ≡ setting_of machine.old }
{
    if machine.refuses(group) {
        return BringUp {
            thread: t,
            rev: machine.rev(group),
            written: Written::Refused,
        };
    }
    machine.set_rev(group, new);
    BringUp {
        thread: t,
        rev: new,
        written: Written::Wrote,
    }
}

/// Brings up those threads of a machine with power that are wanted, in ascending order. All its threads are cold.
pub(crate) fn bring_up_wanted(
    machine: &mut Machine,
    cache: &PatchCache,
    pool: &PatchPool,
    wanted: Wanted,
) -> ArrayVec<BringUp, 256>
    requires power { is_on (hardware_of machine.old).power ≡ true }
    requires cold { (t : ℕ) → is_cold ((hardware_of machine.old).thread t) ≡ true }
    requires groups { groups_of cache.now ≡ (setting_of machine.old).groups }
    requires held { CachesHold (groups_of cache.now) (patches_of pool.now) (cached_of cache.now) }
    ensures brought { record { ups = result.items; after = hardware_of machine.new }
        ≡ bring_up_each (setting_of machine.old) (cached_patches (patches_of pool.now) (cached_of cache.now))
        (hardware_of machine.old) (wanted_threads wanted (setting_of machine.old) (hardware_of machine.old)) }
    ensures same_setting { setting_of machine.new ≡ setting_of machine.old }
{
    let mut ups = ArrayVec::new();
    for t in 0..machine.threads() {
        if !wanted.wants(machine, t) {
            continue;
        }
        ups.push(bring_up(machine, cache, pool, t));
    }
    ups
}

/// Wakes a machine and brings its remembered threads up, in ascending order. It answers `NotAsleep` exactly where the
/// machine does not sleep, and nothing else. The cache and the pool are as in `bring_up`.
pub fn resume(
    machine: &mut Machine,
    cache: &PatchCache,
    pool: &PatchPool,
) -> Result<ArrayVec<BringUp, 256>, HotAnswer>
    requires groups { groups_of cache.now ≡ (setting_of machine.old).groups }
    requires held { CachesHold (groups_of cache.now) (patches_of pool.now) (cached_of cache.now) }
    ensures answer { let row =
        resume (setting_of machine.old) (cached_patches (patches_of pool.now) (cached_of cache.now))
        (hardware_of machine.old) in
        MatchResult result (λ ups. row ≡ Ok (record { ups = ups.items; after = hardware_of machine.new }))
        (λ answer. (row ≡ Err answer) × (hardware_of machine.new ≡ hardware_of machine.old)) }
    ensures same_setting { setting_of machine.new ≡ setting_of machine.old }
{
    // Read for its contract: while the machine sleeps all threads are cold.
    let _power = machine.power();
    machine.wake()?;
    Ok(bring_up_wanted(machine, cache, pool, Wanted::Remembered))
}
