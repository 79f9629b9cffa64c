//! The topology and the script.
ghost use Rattle.std.specs.Prelude.{◌≡◌, ◌<◌, ◌%◌, ◌^◌, ◌++◌, IfOk, OnOk};
ghost use Rattle.uc_gen.specs.Texts.{core_line, thread_line, offline_line, core_lines, thread_lines, offline_lines};
ghost use Rattle.uc_gen.specs.Texts.{topology_text, script_text};

use crate::draws::Draws;
use crate::pushing::push_pieces;
use std::alloc::Global;
use uc_bytes::NoMemory;
use uc_text::{dec, hex8};

fn push_core(bytes: &mut Vec<u8>, core: u32, sig: u32, flags: u32) -> Result<(), NoMemory>
    ensures { OnOk result (bytes.new.items ≡ bytes.old.items ++ core_line core sig flags) }
{
    push_pieces(
        bytes,
        &[
            b"core ",
            dec(u64::from(core)).as_slice(),
            b" sig ",
            &hex8(sig),
            b" flags ",
            &hex8(flags),
            b" rev ",
            &hex8(0x80),
            b"\n",
        ],
    )
}

fn push_thread(bytes: &mut Vec<u8>, thread: u32) -> Result<(), NoMemory>
    ensures { OnOk result (bytes.new.items ≡ bytes.old.items ++ thread_line thread) }
{
    push_pieces(
        bytes,
        &[
            b"cpu ",
            dec(u64::from(thread)).as_slice(),
            b" core ",
            dec(u64::from(thread / 2)).as_slice(),
            b"\n",
        ],
    )
}

/// The line of a thread that goes offline, where the number that was drawn for it is a multiple of 4.
fn push_offline(bytes: &mut Vec<u8>, thread: u32, drawn: u32) -> Result<(), NoMemory>
    ensures { OnOk result (bytes.new.items ≡ bytes.old.items ++ offline_line thread drawn) }
{
    if drawn % 4 != 0 {
        return Ok(());
    }
    push_pieces(
        bytes,
        &[b"offline ", dec(u64::from(thread)).as_slice(), b"\n"],
    )
}

/// One of eight processor flags.
fn flags_of(drawn: u32) -> u32
    ensures { result ≡ 2 ^ (drawn % 8) }
{
    1 << (drawn % 8)
}

/// The lines of 128 cores, for each of which two numbers are drawn.
fn push_cores(bytes: &mut Vec<u8>, number: u64) -> Result<(), NoMemory>
    ensures { OnOk result (bytes.new.items ≡ bytes.old.items ++ core_lines number 128) }
{
    let mut draws = Draws::new(number);
    'cores: for core in 0..128 {
        let sig = 0x906e0 + draws.draw() % 16;
        let flags = flags_of(draws.draw());
        push_core(bytes, core, sig, flags)?;
    }
    Ok(())
}

/// The lines of 256 threads, two on each core.
fn push_threads(bytes: &mut Vec<u8>) -> Result<(), NoMemory>
    ensures { OnOk result (bytes.new.items ≡ bytes.old.items ++ thread_lines 256) }
{
    'threads: for thread in 0..256 {
        push_thread(bytes, thread)?;
    }
    Ok(())
}

/// A topology of 128 cores with two threads each, whose signatures and flags are drawn.
pub fn make_topology(alloc: Global, number: u64) -> Result<Vec<u8>, NoMemory>
    ensures { IfOk result (λ bytes. bytes.items ≡ topology_text number) }
{
    let mut bytes = Vec::from_slice(alloc, b"ucode-topology 1\nvendor intel\n")?;
    push_cores(&mut bytes, number)?;
    push_threads(&mut bytes)?;
    Ok(bytes)
}

/// The lines of the odd threads that go offline, where the number that is drawn for each is a multiple of 4.
fn push_offlines(bytes: &mut Vec<u8>, number: u64) -> Result<(), NoMemory>
    ensures { OnOk result (bytes.new.items ≡ bytes.old.items ++ offline_lines number 128) }
{
    let mut draws = Draws::new(number);
    'places: for place in 0..128 {
        push_offline(bytes, 2 * place + 1, draws.draw())?;
    }
    Ok(())
}

/// A script that boots, takes threads offline, and loads `bundle.bin`, for which there are 5,128 rounds.
pub fn make_script(alloc: Global, number: u64) -> Result<Vec<u8>, NoMemory>
    ensures { IfOk result (λ bytes. bytes.items ≡ script_text number) }
{
    let mut bytes = Vec::from_slice(alloc, b"ucode-script 1\nboot\n")?;
    push_offlines(&mut bytes, number)?;
    bytes.extend_from_slice(b"load bundle.bin\n*5128\nend\n")?;
    Ok(bytes)
}
