//! A region of memory of its own for patches: blocks of 1,024 bytes, in which a patch is put at the lowest run of free
//! blocks that is long enough, and known by its first block from then on.
//!
//! All memory is taken in `PatchPool::new`: one allocation for the blocks, one for the length of the patch at each
//! block, and one for the list of free runs. A contract sees the bytes of the patch at each block (`specs/Pool`), in
//! the words of `region_steps`, and no list of free runs.
#![tactic(auto)]

mod pool;
mod region;
mod runs;

pub use pool::{PatchId, PatchPool, PoolFull};
