//! The memory of a region, with the length of the patch that begins at each block.
ghost use Rattle.std.specs.Prelude.{◌≡◌, ◌<◌, ◌≤◌, ◌+◌, ◌*◌, ◌/◌, true, Some, length, take, drop, replicate, count_by};
ghost use Rattle.std.specs.Prelude.{vec_len, vec_capacity, IfOk};
ghost use Rattle.region_steps.specs.Region.{no_patches, begins_at, blocks_of, width, is_free_run, put_at, take_out};
ghost use Rattle.region_steps.specs.Region.{held};
ghost use Rattle.patch_pool.specs.Bytes.{begins, patches_in, copied_over, EndInside};

use std::alloc::{AllocError, Global};
use uc_bytes::NoMemory;

/// How many blocks of 1,024 bytes so many bytes take.
pub fn blocks_for(bytes: usize) -> u32
    requires { bytes ≤ 67108864 }
    ensures { result ≡ (bytes + 1023) / 1024 }
{
    ((bytes + 1023) / 1024) as u32
}

/// The lengths of no patches, for so many blocks.
fn no_lengths(alloc: Global, blocks: usize) -> Result<Vec<u32>, AllocError>
    ensures { IfOk result (λ lengths. lengths.items ≡ replicate blocks 0) }
{
    vec![in alloc; 0u32; blocks]
}

/// So many bytes of others, from an index on.
fn part(bytes: &[u8], at: usize, len: usize) -> &[u8]
    requires { at + len ≤ length bytes.now }
    ensures { result.now ≡ take len (drop at bytes.now) }
{
    &bytes[at..at + len]
}

/// Copies bytes over others, from an index on.
fn copy_over(bytes: &mut [u8], at: usize, new: &[u8])
    requires { at + length new.now ≤ length bytes.old }
    ensures { bytes.new ≡ copied_over bytes.old at new.now }
{
    bytes[at..at + new.len()].copy_from_slice(new);
}

/// The bytes of the blocks, up to the end of the highest patch that was ever put: memory above it is not touched. For
/// each block the length in bytes of the patch that begins there, 0 where none does; and how many patches there are.
#[derive(Debug, Drop)]
pub struct Region {
    pub bytes: Vec<u8>,
    pub lengths: Vec<u32>,
    held: u32,
    ghost few: { vec_len lengths ≤ 65536 },
    ghost short: { vec_len bytes ≤ 1024 * vec_len lengths },
    ghost room: { 1024 * vec_len lengths ≤ vec_capacity bytes },
    ghost inside: { EndInside bytes.items lengths.items },
    ghost counted: { held ≡ count_by begins lengths.items },
}

impl Region {
    /// A region of so many blocks, without patches.
    pub fn new(alloc: Global, blocks: u32) -> Result<Region, NoMemory>
        requires { blocks ≤ 65536 }
        ensures empty { IfOk result (λ region. patches_in region.bytes.items region.lengths.items ≡ no_patches) }
        ensures size { IfOk result (λ region. vec_len region.lengths ≡ blocks) }
    {
        let bytes = Vec::with_capacity(alloc, blocks as usize * 1024)?;
        let lengths = no_lengths(alloc, blocks as usize)?;
        Ok(Region {
            bytes,
            lengths,
            held: 0,
        })
    }

    /// Whether a patch begins at a block, which may be one that the region does not have.
    pub fn holds(&self, first: u32) -> bool
        ensures { result ≡ begins_at (patches_in self.now.bytes.items self.now.lengths.items) first }
    {
        let at = first as usize;
        at < self.lengths.len() && self.lengths[at] != 0
    }

    /// The bytes of the patch that begins at a block.
    pub fn bytes(&self, first: u32) -> &[u8]
        requires { begins_at (patches_in self.now.bytes.items self.now.lengths.items) first ≡ true }
        ensures { patches_in self.now.bytes.items self.now.lengths.items first ≡ Some result.now }
    {
        let len = self.lengths[first as usize] as usize;
        part(&self.bytes, first as usize * 1024, len)
    }

    /// Makes the bytes go up to an end, where they do not: those that are new are 0.
    fn reach(&mut self, end: usize)
        requires { end ≤ 1024 * vec_len self.old.lengths }
        ensures reached { end ≤ vec_len self.new.bytes }
        ensures same { patches_in self.new.bytes.items self.new.lengths.items
            ≡ patches_in self.old.bytes.items self.old.lengths.items }
        ensures size { vec_len self.new.lengths ≡ vec_len self.old.lengths }
    {
        if self.bytes.len() < end {
            self.bytes.resize(end, 0).unwrap();
        }
    }

    /// Copies a patch to free blocks, from the first on.
    pub fn put(&mut self, first: u32, bytes: &[u8])
        requires some { 0 < length bytes.now }
        requires inside { first + blocks_of bytes.now ≤ vec_len self.old.lengths }
        requires free { is_free_run (patches_in self.old.bytes.items self.old.lengths.items) (blocks_of bytes.now) first
            ≡ true }
        ensures put { patches_in self.new.bytes.items self.new.lengths.items
            ≡ put_at (patches_in self.old.bytes.items self.old.lengths.items) first bytes.now }
        ensures size { vec_len self.new.lengths ≡ vec_len self.old.lengths }
    {
        let at = first as usize * 1024;
        self.reach(at + bytes.len());
        copy_over(&mut self.bytes, at, bytes);
        self.lengths[first as usize] = bytes.len() as u32;
        self.held += 1;
    }

    /// Takes out the patch that begins at a block, and answers how many blocks it had.
    pub fn take_out(&mut self, first: u32) -> u32
        requires { begins_at (patches_in self.old.bytes.items self.old.lengths.items) first ≡ true }
        ensures blocks { result ≡ width (patches_in self.old.bytes.items self.old.lengths.items first) }
        ensures out { patches_in self.new.bytes.items self.new.lengths.items
            ≡ take_out (patches_in self.old.bytes.items self.old.lengths.items) first }
        ensures size { vec_len self.new.lengths ≡ vec_len self.old.lengths }
    {
        let blocks = blocks_for(self.lengths[first as usize] as usize);
        self.lengths[first as usize] = 0;
        self.held -= 1;
        blocks
    }

    /// How many patches there are.
    pub fn held(&self) -> u32
        ensures { result ≡ held (patches_in self.now.bytes.items self.now.lengths.items) (vec_len self.now.lengths) }
    {
        self.held
    }
}
