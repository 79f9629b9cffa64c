//! AMD containers, as Linux 6.7 reads them in `arch/x86/kernel/cpu/microcode/amd.c`.
use crate::words::push_words;
use std::alloc::{AllocError, Global};

/// The words of a container of 116 bytes: its head, a row for signature 0xa20f10 and id 0xa210, a row of zeros, a section's
/// head, and a patch of 64 bytes of revision 0x0a20102b for that id.
pub const CONTAINER: [u32; 29] = [
    0x0041_4d44,
    0,
    32,
    0x00a2_0f10,
    0,
    0,
    0xa210,
    0,
    0,
    0,
    0,
    1,
    64,
    0,
    0x0a20_102b,
    0,
    0,
    0,
    0,
    0xa210,
    0,
    0,
    0,
    0,
    0,
    0,
    0,
    0,
    0,
];

/// Puts that container behind the bytes, for this signature and of this revision.
fn push_container(bytes: &mut Vec<u8>, sig: u32, rev: u32) -> Result<(), AllocError> {
    let mut words = CONTAINER;
    words[3] = sig;
    words[14] = rev;
    push_words(bytes, &words)
}

/// Two of these, whose tables give one id for two signatures: 0xa20f10 with revision 0x0a20102b, and 0xa20f12 with
/// 0x0a201210.
pub fn two_containers(alloc: Global) -> Result<Vec<u8>, AllocError> {
    let mut bytes = Vec::new(alloc);
    push_container(&mut bytes, 0x00a2_0f10, 0x0a20_102b)?;
    push_container(&mut bytes, 0x00a2_0f12, 0x0a20_1210)?;
    Ok(bytes)
}

/// Puts a container's head behind the bytes, and the first row of its table, of which it states the length in bytes.
pub fn push_head(bytes: &mut Vec<u8>, table_len: u32, sig: u32, id: u32) -> Result<(), AllocError> {
    push_words(bytes, &[0x0041_4d44, 0, table_len, sig, 0, 0, id])
}

/// What tells sections apart.
#[derive(Clone, Copy, Debug)]
pub struct Section {
    pub kind: u32,
    /// The patch's length, in bytes.
    pub len: u32,
    pub rev: u32,
    /// The device on the north bridge that the patch is for; 0 where it is for a processor.
    pub north: u32,
    pub id: u32,
}

/// The section of `CONTAINER`.
pub const SECTION: Section = Section {
    kind: 1,
    len: 64,
    rev: 0x0a20_102b,
    north: 0,
    id: 0xa210,
};

/// Puts a section behind the bytes. Of a patch that is shorter than its id stands a front of 28 bytes.
pub fn push_section(bytes: &mut Vec<u8>, section: &Section) -> Result<(), AllocError> {
    let Section {
        kind,
        len,
        rev,
        north,
        id,
    } = *section;
    push_words(bytes, &[kind, len, 0, rev, 0, 0, north, 0, id])?;
    let zeros = (len as usize).saturating_sub(28);
    bytes.resize(bytes.len().saturating_add(zeros), 0)
}
