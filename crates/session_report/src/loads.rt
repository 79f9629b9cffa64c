//! The lines of a load: what it offers, and what its rendezvous came to.
//!
//! Both go by the plan with which the rendezvous sets out: it has the revision of each group, and who takes part.
ghost use Rattle.std.specs.Prelude.{◌≡◌, ℕ, ◌<◌, List, Option, length, flat_map, All, IfSome};
ghost use Rattle.std.specs.List.{range_with_len};
ghost use Rattle.uc_io.specs.Writing.{Writes};
ghost use Rattle.uc_topology.specs.Stated.{group_count};
ghost use Rattle.machine_steps.specs.Puts.{Puts};
ghost use Rattle.ctl_words.specs.Plans.{plan_of};
ghost use Rattle.session_steps.specs.State.{Setting, State};
ghost use Rattle.session_steps.specs.Offers.{offered_text, load_offers_text, plan_of as load_plan};
ghost use Rattle.session_steps.specs.Did.{cpu_text, results_text};
ghost use Rattle.session_report.specs.Loads.{ended, takes_part, line_of_core};

use crate::lines::{put_core, put_cpu, put_load_offer};
use ctl_words::Plan;
use rendezvous_steps::End;
use uc_catalog::Catalog;
use uc_io::{Sink, SinkFailed};
use uc_topology::Topology;

/// The line of a core at a revision, where its group is offered an entry.
fn put_offered<S: Sink>(
    out: &mut S,
    catalog: &Catalog,
    core: u16,
    rev: u32,
    offer: Option<u32>,
) -> Result<(), SinkFailed>
    requires { IfSome offer (λ number. number < length catalog.now.entries) }
    ensures { Writes S.stands S.faults out.old out.new (offered_text catalog.now.entries core rev offer) result }
{
    match offer {
        Some(number) => put_load_offer(out, core, rev, number, &catalog.entry(number)),
        None => Ok(()),
    }
}

/// The lines of what a load offers: one for each core of a group with an offer, in ascending order, also where no
/// thread of the core takes part. There is one offer for each group, an entry of the catalogue or none, and the plan is
/// the load's.
pub fn put_load_offers<S: Sink>(
    out: &mut S,
    topology: &Topology,
    plan: &Plan,
    catalog: &Catalog,
    offers: &[Option<u32>],
) -> Result<(), SinkFailed>
    requires count { length offers.now ≡ group_count topology.now.stated.cores }
    requires within { All (λ offer. IfSome offer (λ number. number < length catalog.now.entries)) offers.now }
    ensures { (setting : Setting) (state : State) (puts : Puts) (offered : List (Option ℕ)) →
        setting.machine ≡ topology.now → plan_of plan.now ≡ load_plan setting state puts offered →
        Writes S.stands S.faults out.old out.new
        (load_offers_text setting state catalog.now.entries offers.now) result }
{
    'cores: for core in 0..topology.cores() {
        let group = topology.group_of_core(core);
        let rev = plan.rev0_of(group);
        put_offered(out, catalog, core, rev, offers[group as usize])?;
    }
    Ok(())
}

/// The line of a thread that took part; there is none of one that did not.
fn put_thread<S: Sink>(out: &mut S, plan: &Plan, ends: &[End], t: u16) -> Result<(), SinkFailed>
    ensures { Writes S.stands S.faults out.old out.new
        (cpu_text ((plan_of plan.now).kind t) t (ended ends.now)) result }
{
    if plan.kind_of(t).is_absent() {
        return Ok(());
    }
    let end = ends.get(usize::from(t)).copied().unwrap_or(End::Absent);
    put_cpu(out, t, end)
}

/// The lines of the threads that took part.
fn put_threads<S: Sink>(out: &mut S, plan: &Plan, ends: &[End]) -> Result<(), SinkFailed>
    ensures { Writes S.stands S.faults out.old out.new
        (flat_map (λ t. cpu_text ((plan_of plan.now).kind t) t (ended ends.now)) (range_with_len 0 plan.now.threads))
        result }
{
    'threads: for t in 0..plan.threads {
        put_thread(out, plan, ends, t)?;
    }
    Ok(())
}

/// Whether a thread of a core takes part.
fn takes_part(topology: &Topology, plan: &Plan, core: u16) -> bool
    ensures { result ≡ takes_part topology.now (plan_of plan.now) core }
{
    'threads: for t in 0..topology.threads() {
        if topology.core_of(t) == core && !plan.kind_of(t).is_absent() {
            return true;
        }
    }
    false
}

/// The line of a core of which a thread takes part, at the revision of its group.
fn put_core_where<S: Sink>(
    out: &mut S,
    topology: &Topology,
    plan: &Plan,
    revs: &[u32],
    core: u16,
) -> Result<(), SinkFailed>
    requires core { core < length topology.now.stated.cores }
    requires revs { length revs.now ≡ group_count topology.now.stated.cores }
    ensures { (before : ℕ → ℕ) →
        Writes S.stands S.faults out.old out.new
        (line_of_core topology.now (plan_of plan.now) revs.now before core) result }
{
    if !takes_part(topology, plan, core) {
        return Ok(());
    }
    put_core(out, core, revs[usize::from(topology.group_of_core(core))])
}

/// The lines of the cores of which a thread takes part.
fn put_cores<S: Sink>(
    out: &mut S,
    topology: &Topology,
    plan: &Plan,
    revs: &[u32],
) -> Result<(), SinkFailed>
    requires { length revs.now ≡ group_count topology.now.stated.cores }
    ensures { (before : ℕ → ℕ) →
        Writes S.stands S.faults out.old out.new
        (flat_map (line_of_core topology.now (plan_of plan.now) revs.now before)
        (range_with_len 0 (length topology.now.stated.cores))) result }
{
    'cores: for core in 0..topology.cores() {
        put_core_where(out, topology, plan, revs, core)?;
    }
    Ok(())
}

/// The lines of what a rendezvous came to: each thread that took part with its end, and each core of one with the
/// revision of its group. The plan is the load's, and there is one revision for each group.
pub fn put_results<S: Sink>(
    out: &mut S,
    topology: &Topology,
    plan: &Plan,
    ends: &[End],
    revs: &[u32],
) -> Result<(), SinkFailed>
    requires { length revs.now ≡ group_count topology.now.stated.cores }
    ensures { (setting : Setting) (state : State) (puts : Puts) (offered : List (Option ℕ)) (decide : ℕ) →
        setting.machine ≡ topology.now → plan_of plan.now ≡ load_plan setting state puts offered →
        Writes S.stands S.faults out.old out.new
        (results_text setting state (plan_of plan.now) (record { decide = decide; ends = ends.now; revs = revs.now }))
        result }
{
    put_threads(out, plan, ends)?;
    put_cores(out, topology, plan, revs)
}
