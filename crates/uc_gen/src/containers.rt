//! The AMD file.
ghost use Rattle.std.specs.Prelude.{◌≡◌, ℕ, ◌+◌, ◌*◌, ◌<◌, ◌++◌, IfOk, OnOk};
ghost use Rattle.uc_gen.specs.Bundle.{bytes_of};
ghost use Rattle.uc_gen.specs.Containers.{equiv_words, section_words, sections, sig_for, container_words, amd_file};
ghost use Rattle.uc_gen.specs.Draws.{state_after};

use crate::draws::Draws;
use crate::pushing::push_words;
use std::alloc::Global;
use uc_bytes::NoMemory;

/// The signature of family 19h for a number of 12 bits.
fn sig_for(a: u32) -> u32
    requires { a < 4096 }
    ensures { result ≡ sig_for a }
{
    0x00a0_0f00 + a / 256 * 65_536 + a % 256
}

/// The head of a container and its table of one row.
fn push_equiv(bytes: &mut Vec<u8>, sig: u32, id: u32) -> Result<(), NoMemory>
    ensures { OnOk result (bytes.new.items ≡ bytes.old.items ++ bytes_of (equiv_words sig id)) }
{
    push_words(bytes, &[0x0041_4d44, 0, 16, sig, 0, 0, id])
}

/// The head of a section and its patch of 64 bytes.
fn push_section(bytes: &mut Vec<u8>, rev: u32, id: u32) -> Result<(), NoMemory>
    ensures { OnOk result (bytes.new.items ≡ bytes.old.items ++ bytes_of (section_words rev id)) }
{
    push_words(
        bytes,
        &[1, 64, 0, rev, 0, 0, 0, 0, id, 0, 0, 0, 0, 0, 0, 0, 0, 0],
    )
}

/// The sections of four patches for an id, whose revisions are drawn next.
fn push_sections(bytes: &mut Vec<u8>, draws: &mut Draws, id: u32) -> Result<(), NoMemory>
    ensures bytes { (number before : ℕ) → draws.old.state ≡ state_after number before →
        OnOk result (bytes.new.items ≡ bytes.old.items ++ bytes_of (sections number before id 4)) }
    ensures state { (number before : ℕ) → draws.old.state ≡ state_after number before →
        OnOk result (draws.new.state ≡ state_after number (before + 4)) }
{
    'patches: for _ in 0..4u32 {
        push_section(bytes, 0x0a00_0000 + draws.draw() % 65_536, id)?;
    }
    Ok(())
}

/// Puts the container that is drawn next behind the bytes.
fn push_container(bytes: &mut Vec<u8>, draws: &mut Draws) -> Result<(), NoMemory>
    ensures bytes { (number before : ℕ) → draws.old.state ≡ state_after number before →
        OnOk result (bytes.new.items ≡ bytes.old.items ++ bytes_of (container_words number before)) }
    ensures state { (number before : ℕ) → draws.old.state ≡ state_after number before →
        OnOk result (draws.new.state ≡ state_after number (before + 5)) }
{
    let a = draws.draw() % 4096;
    push_equiv(bytes, sig_for(a), 0xa000 + a)?;
    push_sections(bytes, draws, 0xa000 + a)
}

/// An AMD file of 16 containers, each with a table of one row and four patches.
pub fn make_amd(alloc: Global, number: u64) -> Result<Vec<u8>, NoMemory>
    ensures { IfOk result (λ bytes. bytes.items ≡ amd_file number) }
{
    let mut bytes = Vec::new(alloc);
    let mut draws = Draws::new(number);
    'containers: for _ in 0..16u32 {
        push_container(&mut bytes, &mut draws)?;
    }
    Ok(bytes)
}
