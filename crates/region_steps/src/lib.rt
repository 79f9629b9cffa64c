//! The region of memory that patches lie in, defined: blocks of 1,024 bytes, and the patches that stand in them.
//!
//! A patch is known by the block at which it begins, so what a region holds is a function: for each block the bytes of
//! the patch that begins there, or none. It speaks of no free list. `specs/Region` says which blocks are covered, which
//! run of free blocks is the lowest that is long enough, how long the longest is, what a region holds after a patch was
//! put or freed, and when patches stand: each inside the region, and no two on one block. The layout is this
//! project's own.
#![tactic(auto)]
