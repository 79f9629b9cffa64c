//! The format of Intel microcode updates, as definitions.
//!
//! It is that of the Intel SDM, volume 3A, "Microcode Update Facilities": a header of 48 bytes, the data, and then up
//! to the total size an optional extended signature table. The layout of the date and the names and uses of the three
//! words at 36, 40 and 44 are this project's own choice. All numbers are little-endian.
//!
//! `specs/` says what an update is (`Update`), what its header's sizes and checks are (`Header`, `Checks`), and which
//! day its date names (`Date`), of whole lists of bytes. The readers above prove that they find just that.
#![tactic(auto)]

mod header;
pub mod laws;

pub use header::IntelHeader;
