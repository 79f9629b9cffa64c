//! The families of processors.
ghost use Rattle.std.specs.Prelude.{◌≡◌, ◌↔◌, IsTrue};
ghost use Rattle.amd_format.specs.Patch.{patch_family, sig_family, PastBound};

/// The family of the processors that a patch of this id is for: 0Fh, to which bits 15 to 12 of the id are added. Linux
/// 6.7, `arch/x86/kernel/cpu/microcode/amd.c`, verify_patch.
pub fn patch_family(id: u16) -> u16
    ensures { result ≡ patch_family id }
{
    0xf + (id >> 12)
}

/// The family in a processor's signature, as CPUID leaf 1 gives it: bits 11 to 8, and where these are 15 bits 27 to 20
/// are added. Linux 6.7, `arch/x86/lib/cpu.c`, x86_family.
pub fn sig_family(sig: u32) -> u16
    ensures { result ≡ sig_family sig }
{
    let base = (sig >> 8) % 16;
    if base == 15 {
        (15 + (sig >> 20) % 256) as u16
    } else {
        base as u16
    }
}

/// Whether a patch of so many bytes is longer than its family allows: 2,048 bytes for 10h to 12h, 1,824 for 14h.
pub fn is_past_bound(family: u16, size: u32) -> bool
    ensures { IsTrue result ↔ PastBound family size }
{
    match family {
        0x10..=0x12 => size > 2_048,
        0x14 => size > 1_824,
        _ => false,
    }
}
