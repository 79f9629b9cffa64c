//! Early loading: which patch each group of a machine caches, and what its threads write where they come up. After
//! Linux
//! 6.7, arch/x86/kernel/cpu/microcode: a processor that comes up at a boot or a resume writes the patch that was found
//! for it (`load_ucode_ap`, `mc_bp_resume`).
//!
//! What a thread writes that comes up, and which offered entries are put where, stand in `machine_steps`.
//! `specs/Caches` says what a cache stands for and when a region holds just what is cached, `specs/Boots` what a boot
//! answers. No call takes memory.
#![tactic(auto)]

mod answers;
mod booting;
mod cache;
mod coming_up;
mod patches;
mod puts;
mod wanted;

pub use answers::BootAnswer;
pub use booting::boot;
pub use cache::PatchCache;
pub use coming_up::{bring_up, resume};
pub use machine_steps::{BringUp, Written};
pub use puts::{put_offers, take_back};
