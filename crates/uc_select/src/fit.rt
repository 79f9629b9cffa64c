//! Which cores an entry is for. Linux 6.7, `arch/x86/kernel/cpu/microcode`, `intel.c` and `amd.c`.
ghost use Rattle.std.specs.Prelude.{◌<◌, ◌↔◌, IsTrue, length};
ghost use Rattle.entry_model.specs.Selection.{FlagsMeet, HasPair, IsServed, Fits, IsSafe};
ghost use Rattle.uc_catalog.specs.Contents.{entry_at};

use amd_file::sig_family;
use entry_model::CoreFacts;
use uc_bytes::Vendor;
use uc_catalog::Catalog;

/// Whether processor flags are both 0 or share a bit.
fn flags_meet(flags: u32, others: u32) -> bool
    ensures { IsTrue result ↔ FlagsMeet flags others }
{
    flags == 0 && others == 0 || flags & others != 0
}

/// Whether one of an entry's pairs is for this signature and these processor flags.
fn has_pair(catalog: &Catalog, i: u32, sig: u32, flags: u32) -> bool
    requires { i < length catalog.now.entries }
    ensures { IsTrue result ↔ HasPair (entry_at catalog.now i).pairs sig flags }
{
    for k in 0..catalog.pairs(i) {
        let (pair_sig, pair_flags) = catalog.pair(i, k);
        if pair_sig == sig && flags_meet(pair_flags, flags) {
            return true;
        }
    }
    false
}

/// Whether the table of an entry's own container gives its id for the signature, and its family is the signature's and
/// none of the two, 0fh and 13h, that are never offered.
fn is_served(catalog: &Catalog, i: u32, sig: u32) -> bool
    requires { i < length catalog.now.entries }
    ensures { IsTrue result ↔ IsServed (entry_at catalog.now i) sig }
{
    let facts = catalog.entry(i);
    facts.id != 0
        && facts.family == sig_family(sig)
        && facts.family != 0x0f
        && facts.family != 0x13
        && catalog.id_for(i, sig) == facts.id
}

/// Whether an entry fits a core, which it does only where both are of one vendor.
pub fn fits(catalog: &Catalog, i: u32, core: &CoreFacts) -> bool
    requires { i < length catalog.now.entries }
    ensures { IsTrue result ↔ Fits (entry_at catalog.now i) core.now }
{
    match (catalog.entry(i).vendor, core.vendor) {
        (Vendor::Intel, Vendor::Intel) => has_pair(catalog, i, core.sig, core.flags),
        (Vendor::Amd, Vendor::Amd) => is_served(catalog, i, core.sig),
        _ => false,
    }
}

/// Whether a load of an entry without a reboot is safe at a revision, by the minimum that the entry itself states.
pub fn is_safe(catalog: &Catalog, i: u32, rev: u32) -> bool
    requires { i < length catalog.now.entries }
    ensures { IsTrue result ↔ IsSafe (entry_at catalog.now i) rev }
{
    let facts = catalog.entry(i);
    match facts.vendor {
        Vendor::Intel => facts.min != 0 && facts.min <= rev,
        Vendor::Amd => false,
    }
}
