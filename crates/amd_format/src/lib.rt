//! The format of AMD microcode container files, as definitions.
//!
//! It is that of the files that Linux 6.7 reads in `arch/x86/kernel/cpu/microcode/amd.c`: containers, one after another,
//! each a head of 12 bytes, an equivalence table, and then sections of one patch each. All numbers are little-endian. The
//! bounds on the size of a patch, which go by the patch's own family, are this project's own choice.
//!
//! `specs/` says what an equivalence table (`Equiv`), a patch and its section (`Patch`) and a file (`File`) are, and in
//! which order they are checked (`Checks`), of whole lists of bytes. The readers above prove that they find just that.
#![tactic(auto)]

pub mod laws;
