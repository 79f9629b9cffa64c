//! What a boot refuses.

/// Why a machine was not booted.
#[derive(Clone, Copy, Debug, PartialEq, Eq)]
pub enum BootAnswer {
    /// It was booted already.
    Booted,
    /// The region has no run of so many free blocks for an entry that is offered.
    PoolFull(u32),
}
