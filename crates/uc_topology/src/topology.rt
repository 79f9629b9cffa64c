ghost use Rattle.std.specs.Prelude.{◌≡◌, ◌<◌, ◌≤◌, ◌==◌, nat_lt, length, map, slice_index, MatchOption, true, false};
ghost use Rattle.std.specs.List.{range_with_len, position_or_len, list_all};
ghost use Rattle.uc_topology.specs.Stated.{lead};
ghost use Rattle.uc_topology.specs.Grammar.{is_full};

use crate::tables::{GroupFacts, Tables, copied};
use arrayvec::ArrayVec;
use std::marker::Model;
use uc_bytes::Vendor;

/// A machine: threads on cores, cores in groups. All are numbered from 0. A contract sees who makes the processors,
/// the cores, and the core of each thread. It holds a kilobyte or more for each of its tables, so keep it in one place.
#[derive(Debug, Drop)]
pub struct Topology {
    vendor: Vendor,
    tables: Tables,
    leads: ArrayVec<u16, 256>,
    primaries: ArrayVec<u16, 256>,
}

impl Model for Topology {
    ghost use Rattle.std.specs.Prelude.{◌≡◌, true, length, map};
    ghost use Rattle.std.specs.List.{range_with_len};
    ghost use Rattle.uc_topology.specs.Stated.{Machine, group_count, lead, primary};

    ghost Value = { Machine };

    ghost use Rattle.uc_topology.specs.Grammar.{is_full};

    ghost view = { λ topology. record { vendor = topology.vendor; stated = topology.tables } };

    ghost invariant = { λ topology. (topology.leads.items ≡ map (lead topology.tables) (range_with_len 0 (length topology.tables.cores)))
        × (topology.primaries.items ≡ map (primary topology.tables) (range_with_len 0 (group_count topology.tables.cores)))
        × (is_full topology.tables ≡ true) };
}

impl Topology {
    ghost use Rattle.uc_topology.specs.Stated.{Machine, IsPartition, core_at, group_of, group_count, group_facts, thread_groups, primary};

    /// The topology of whole tables; nothing where a core has no thread, or there is no thread.
    pub(crate) fn of_tables(vendor: Vendor, tables: Tables) -> Option<Topology>
        ensures { MatchOption result (is_full tables ≡ false) (λ topology. (is_full tables ≡ true) × (topology ≡ record { vendor = vendor; stated = tables })) }
    {
        let leads = first_places(tables.cores().len() as u16, tables.threads());
        let primaries = first_places(tables.groups(), tables.thread_groups());
        if !is_full(&tables, &leads) {
            return None;
        }
        Some(Topology {
            vendor,
            tables,
            leads,
            primaries,
        })
    }

    /// The number of threads, which is at least 1. Its contract says also that cores and groups are partitions.
    pub fn threads(&self) -> u16
        ensures value { result ≡ length self.now.stated.threads }
        ensures partition { IsPartition self.now.stated }
    {
        self.tables.threads().len() as u16
    }

    pub fn cores(&self) -> u16
        ensures { result ≡ length self.now.stated.cores }
    {
        self.tables.cores().len() as u16
    }

    pub fn groups(&self) -> u16
        ensures value { result ≡ group_count self.now.stated.cores }
        ensures few { group_count self.now.stated.cores ≤ 256 }
    {
        self.tables.groups()
    }

    pub fn vendor(&self) -> Vendor
        ensures { result ≡ self.now.vendor }
    {
        self.vendor
    }

    /// The core of a thread.
    pub fn core_of(&self, thread: u16) -> u16
        requires { thread < length self.now.stated.threads }
        ensures { result ≡ slice_index self.now.stated.threads thread }
    {
        self.tables.threads()[thread as usize]
    }

    /// The group of a thread.
    pub fn group_of(&self, thread: u16) -> u16
        requires { thread < length self.now.stated.threads }
        ensures { result ≡ slice_index (thread_groups self.now.stated) thread }
    {
        self.tables.thread_groups()[thread as usize]
    }

    pub fn group_of_core(&self, core: u16) -> u16
        requires { core < length self.now.stated.cores }
        ensures value { result ≡ group_of (core_at self.now.stated.cores core) }
        ensures within { result < group_count self.now.stated.cores }
    {
        self.tables.cores()[core as usize].group
    }

    /// The lowest thread of a core.
    pub fn lead_of(&self, core: u16) -> u16
        requires { core < length self.now.stated.cores }
        ensures { result ≡ lead self.now.stated core }
    {
        self.leads[core as usize]
    }

    /// The lowest thread of a group.
    pub fn primary_of(&self, group: u16) -> u16
        requires { group < group_count self.now.stated.cores }
        ensures { result ≡ primary self.now.stated group }
    {
        self.primaries[group as usize]
    }

    /// What the cores of a group share.
    pub fn facts(&self, group: u16) -> GroupFacts
        requires { group < group_count self.now.stated.cores }
        ensures { result ≡ group_facts self.now.stated.cores group }
    {
        self.tables.facts(group)
    }

    /// The same topology once more. It takes no memory.
    pub fn copy(&self) -> Topology
        ensures { result ≡ self.now }
    {
        Topology {
            vendor: self.vendor,
            tables: self.tables.copy(),
            leads: copied(&self.leads),
            primaries: copied(&self.primaries),
        }
    }
}

/// Whether there is a thread, and each core has one.
#[tactic(auto, using(crate::proofs::Kept::list_all_map))]
fn is_full(tables: &Tables, leads: &[u16]) -> bool
    requires { leads.now ≡ map (lead tables.now) (range_with_len 0 (length tables.now.cores)) }
    ensures { result ≡ is_full tables.now }
{
    let threads = tables.threads().len();
    threads > 0 && all_below(leads, threads)
}

fn all_below(places: &[u16], end: usize) -> bool
    ensures { result ≡ list_all (λ place. nat_lt place end) places.now }
{
    places.iter().all(|place| (*place as usize) < end)
}

/// Where each number below a count first stands in a table, or the table's length where it does not.
fn first_places(count: u16, table: &[u16]) -> ArrayVec<u16, 256>
    requires count { count ≤ 256 }
    requires table { length table.now ≤ 256 }
    ensures { result.items ≡ map (λ number. position_or_len (λ other. other == number) table.now) (range_with_len 0 count) }
{
    let mut places = ArrayVec::new();
    for number in 0..count {
        places.push(first_place(number, table));
    }
    places
}

fn first_place(number: u16, table: &[u16]) -> u16
    requires { length table.now ≤ 256 }
    ensures { result ≡ position_or_len (λ other. other == number) table.now }
{
    for (place, other) in table.iter().enumerate() {
        if *other == number {
            return place as u16;
        }
    }
    table.len() as u16
}
