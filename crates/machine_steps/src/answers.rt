//! What the machine refuses.

/// Why the machine did not do as it was told. The numbers are those of threads.
#[derive(Clone, Copy, Debug, PartialEq, Eq)]
pub enum HotAnswer {
    /// The thread to be taken offline is not up.
    NotUp(u16),
    /// The thread to be brought up is up.
    IsUp(u16),
    /// Thread 0 is never taken offline.
    BootThread,
    /// The machine is off or asleep.
    PoweredDown,
    /// The machine was booted already.
    Booted,
    /// The machine is off, or on already.
    NotAsleep,
}
