//! The bytes that a number generates, by their length and their FNV-1a of 64 bits. The values were computed from the
//! statement of the generator in docs/FORMATS.md, by a program that shares no line with this repository.
use amd_file::read_amd;
use intel_file::read_intel;
use std::alloc::Global;
use std::test::Fail;
use uc_bytes::NoMemory;
use uc_gen::{make_amd, make_intel, make_script, make_topology};

/// The length of bytes, and their FNV-1a.
fn print_of(bytes: &[u8]) -> (usize, u64) {
    let mut hash = 0xcbf2_9ce4_8422_2325u64;
    for byte in bytes {
        hash = (hash ^ u64::from(*byte)).wrapping_mul(0x0100_0000_01b3);
    }
    (bytes.len(), hash)
}

#[test]
fn files_and_texts_are_those_of_their_number(rt: HostRuntime) -> Result<(), Fail> {
    let alloc = rt.alloc();
    #[rattlefmt::skip]
    let table: [(u64, u64, u64, u64, (usize, u64)); 3] = [
        (0, 0x7665_bf18_c396_759b, 0xbebb_8d23_6b70_9b7c, 0x3c28_82f2_023e_4ecb, (393, 0x4b13_e30d_6dbe_82b5)),
        (1, 0x06f8_9530_7539_e2c7, 0x93c8_be29_1e8d_098c, 0x2af7_36e3_fb3e_d0c7, (439, 0xd893_aead_f323_e7c6)),
        (u64::MAX, 0x2800_777e_b4d0_9280, 0x0de0_55d3_4271_aab2, 0x75c5_07fa_0413_f752, (474, 0x3512_1a7d_028f_634a)),
    ];
    for (number, intel, amd, topology, script) in &table {
        assert_eq!(rt; print_of(&make_intel(alloc, *number)?), (1_048_576, *intel));
        assert_eq!(rt; print_of(&make_amd(alloc, *number)?), (5_056, *amd));
        assert_eq!(rt;
            print_of(&make_topology(alloc, *number)?),
            (11_110, *topology)
        );
        assert_eq!(rt; print_of(&make_script(alloc, *number)?), *script);
    }
    Ok(())
}

/// How many updates the Intel file of a number has; none where it has no reading.
fn updates_of(alloc: Global, number: u64) -> Result<usize, NoMemory> {
    let bytes = make_intel(alloc, number)?;
    if bytes.len() > 67_108_864 {
        return Ok(0);
    }
    match read_intel(alloc, &bytes) {
        Ok(updates) => Ok(updates.len()),
        Err(_) => Ok(0),
    }
}

/// How many patches each container of the AMD file of a number has; none where it has no reading.
fn patches_of(alloc: Global, number: u64) -> Result<Vec<usize>, NoMemory> {
    let mut counts = Vec::new(alloc);
    let bytes = make_amd(alloc, number)?;
    if bytes.len() <= 67_108_864 {
        if let Ok(containers) = read_amd(alloc, &bytes) {
            for container in &containers {
                counts.push(container.patches.len())?;
            }
        }
    }
    Ok(counts)
}

#[test]
fn generated_files_are_read(rt: HostRuntime) -> Result<(), Fail> {
    let alloc = rt.alloc();
    assert_eq!(rt; updates_of(alloc, 1)?, 512);
    assert_eq!(rt; patches_of(alloc, 1)?.as_slice(), [4usize; 16].as_slice());
    Ok(())
}
