//! What becomes of a thread that comes up.

/// Whether a thread that came up wrote its group's cached patch.
#[derive(Clone, Copy, Debug, Default, PartialEq, Eq)]
pub enum Written {
    /// It had nothing to write.
    #[default]
    No,
    Wrote,
    /// It tried, and its group refused.
    Refused,
}

/// A thread that came up, the revision of its group then, and whether it wrote that.
#[derive(Clone, Copy, Debug, Default, PartialEq, Eq)]
pub struct BringUp {
    pub thread: u16,
    pub rev: u32,
    pub written: Written,
}
