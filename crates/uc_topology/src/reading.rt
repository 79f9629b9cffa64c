ghost use Rattle.std.specs.Prelude.{◌≡◌, ◌<◌, ◌≤◌, slice_index, length, filter, MatchResult, MatchOption, IfOk, IfErr, Ok, Err, codes, ℕ, List, ◌⊎◌};
ghost use Rattle.uc_topology.specs.Stated.{Machine};
ghost use Rattle.uc_topology.specs.Texts.{States, FirstFault};
ghost use Rattle.uc_topology.specs.declared.fault.TopoFault.{TopoFault};
ghost use Rattle.uc_text.specs.Lines.{counts, words_of};
ghost use Rattle.uc_topology.specs.Forms.{numbers_of};
ghost use Rattle.uc_topology.specs.declared.fault.TopoCause.TheVariants.{Head, Word};
ghost use Rattle.uc_topology.specs.Grammar.{facts_from, version_of, vendor_of, core_form, core_from, thread_from, after_line, read_body, reading};

use crate::fault::{TopoCause, TopoFault};
use crate::forms::{Version, has_form, numbers_in};
use crate::tables::{GroupFacts, Tables};
use crate::topology::Topology;
use uc_bytes::Vendor;
use uc_text::Lines;

/// The topology that a text states. It takes no memory. Lines without words, and those that begin with `#`, are
/// skipped. The first two lines name the version and the vendor, as `ucode-topology 1` and `vendor intel`; each
/// other line is a core's or a thread's, as `core 0 sig 0x906ea flags 0x2 rev 0xb4` and `cpu 0 core 0`.
pub fn read_topology(bytes: &[u8]) -> Result<Topology, TopoFault>
    requires { length bytes.now ≤ 1048576 }
    ensures stated { IfOk result (States bytes.now) }
    ensures fault { IfErr result (FirstFault bytes.now) }
    ensures reading { MatchResult result (λ topology. reading bytes.now ≡ Ok topology) (λ fault. reading bytes.now ≡ Err fault) }
{
    read(bytes)
}

/// Each text states one machine or has one first fault, and never both. This is a law: the body does nothing.
pub fn each_text_reads_one_way()
    ensures reads { (text : List ℕ) → ((machine : Machine) × States text machine) ⊎ ((fault : TopoFault) × FirstFault text fault) }
    ensures one_machine { (text : List ℕ) (one other : Machine) → States text one → States text other → one ≡ other }
    ensures one_fault { (text : List ℕ) (one other : TopoFault) → FirstFault text one → FirstFault text other → one ≡ other }
    ensures never_both { (text : List ℕ) (machine : Machine) (fault : TopoFault) → States text machine → FirstFault text fault → ⊥ }
{}

#[tactic(auto, unfolding(crate::specs::Grammar::reading))]
fn read(bytes: &[u8]) -> Result<Topology, TopoFault>
    requires { length bytes.now ≤ 1048576 }
    ensures { MatchResult result (λ topology. reading bytes.now ≡ Ok topology) (λ fault. reading bytes.now ≡ Err fault) }
{
    let mut lines = Lines::new(bytes);
    let Some(head) = lines.next_counted() else {
        return Err(fault_at(0, TopoCause::Head));
    };
    let Some(version) = version_of(head.text) else {
        return Err(fault_at(head.number, TopoCause::Head));
    };
    let Some(second) = lines.next_counted() else {
        return Err(fault_at(0, TopoCause::Word));
    };
    let Some(vendor) = vendor_of(second.text) else {
        return Err(fault_at(second.number, TopoCause::Word));
    };
    read_body(version, vendor, lines)
}

#[tactic(auto, unfolding(crate::specs::Grammar::after_lines))]
fn read_body(version: Version, vendor: Vendor, lines: Lines) -> Result<Topology, TopoFault>
    ensures { let read = read_body version vendor (filter counts lines.entry) in MatchResult result (λ topology. read ≡ Ok topology) (λ fault. read ≡ Err fault) }
{
    let mut lines = lines;
    let mut tables = Tables::new();
    while let Some(line) = lines.next_counted() {
        match add_line(version, line.text, &mut tables) {
            Ok(()) => {}
            Err(cause) => return Err(fault_at(line.number, cause)),
        }
    }
    match Topology::of_tables(vendor, tables) {
        Some(topology) => Ok(topology),
        None => Err(fault_at(0, TopoCause::EmptyCore)),
    }
}

fn fault_at(line: u32, cause: TopoCause) -> TopoFault
    ensures { result ≡ record { line = line; cause = cause } }
{
    TopoFault { line, cause }
}

fn version_of(line: &[u8]) -> Option<Version>
    ensures { MatchOption result (version_of line.now ≡ Err Head) (λ version. version_of line.now ≡ Ok version) }
{
    if has_form(b"ucode-topology 1", line) {
        Some(Version::Cores)
    } else if has_form(b"ucode-topology 2", line) {
        Some(Version::Packages)
    } else {
        None
    }
}

fn vendor_of(line: &[u8]) -> Option<Vendor>
    ensures { MatchOption result (vendor_of line.now ≡ Err Word) (λ vendor. vendor_of line.now ≡ Ok vendor) }
{
    if has_form(b"vendor intel", line) {
        Some(Vendor::Intel)
    } else if has_form(b"vendor amd", line) {
        Some(Vendor::Amd)
    } else {
        None
    }
}

/// Takes what one line states.
#[tactic(auto, unfolding(crate::specs::Grammar::after_line))]
fn add_line(version: Version, line: &[u8], tables: &mut Tables) -> Result<(), TopoCause>
    ensures { let next = after_line version tables.old line.now in MatchResult result (λ _. next ≡ Ok tables.new) (λ cause. next ≡ Err cause) }
{
    let core_form = core_form(version);
    if has_form(core_form, line) {
        add_core(version, core_form, line, tables)
    } else if has_form(b"cpu T core C", line) {
        add_thread(line, tables)
    } else {
        Err(TopoCause::Word)
    }
}

fn core_form(version: Version) -> &'static [u8]
    ensures value { result.now ≡ core_form version }
    ensures words { length (words_of result.now) ≤ 10 }
{
    match version {
        Version::Cores => b"core C sig S flags F rev R",
        Version::Packages => b"core C package P sig S flags F rev R",
    }
}

fn add_core(
    version: Version,
    form: &[u8],
    line: &[u8],
    tables: &mut Tables,
) -> Result<(), TopoCause>
    requires { length (words_of form.now) ≤ 10 }
    ensures { let next = core_from version tables.old (numbers_of (words_of form.now) (words_of line.now)) in MatchResult result (λ _. next ≡ Ok tables.new) (λ cause. next ≡ Err cause) }
{
    let Some(numbers) = numbers_in(form, line) else {
        return Err(TopoCause::Number);
    };
    let number = number_at(&numbers, 0);
    match version {
        Version::Cores => tables.add_core(number, number, facts_from(&numbers, 1)),
        Version::Packages => {
            tables.add_core(number, number_at(&numbers, 1), facts_from(&numbers, 2))
        }
    }
}

fn number_at(numbers: &[u32], place: usize) -> u32
    ensures { result ≡ slice_index numbers.now place }
{
    numbers.get(place).copied().unwrap_or(0)
}

/// The facts from a place on.
fn facts_from(numbers: &[u32], place: usize) -> GroupFacts
    requires { place < 10 }
    ensures { result ≡ facts_from numbers.now place }
{
    GroupFacts {
        sig: number_at(numbers, place),
        flags: number_at(numbers, place + 1),
        rev: number_at(numbers, place + 2),
    }
}

#[tactic(auto, using(crate::proofs::Body::thread_words))]
fn add_thread(line: &[u8], tables: &mut Tables) -> Result<(), TopoCause>
    ensures { let next = thread_from tables.old (numbers_of (words_of (codes "cpu T core C")) (words_of line.now)) in MatchResult result (λ _. next ≡ Ok tables.new) (λ cause. next ≡ Err cause) }
{
    let Some(numbers) = numbers_in(b"cpu T core C", line) else {
        return Err(TopoCause::Number);
    };
    tables.add_thread(number_at(&numbers, 0), number_at(&numbers, 1))
}
