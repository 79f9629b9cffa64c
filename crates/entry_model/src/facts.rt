use uc_bytes::Vendor;

/// What a core is, for the choice of an update.
#[derive(Clone, Copy, Debug, PartialEq, Eq)]
pub struct CoreFacts {
    pub vendor: Vendor,
    /// The signature of the processor, as CPUID leaf 1 gives it.
    pub sig: u32,
    /// Intel: the processor flags, 0 or a bit for the platform that bits 52 to 50 of MSR 17H name.
    pub flags: u32,
    /// The revision that it runs.
    pub rev: u32,
}

/// An entry of a list of files. The fields of the other vendor are 0.
#[derive(Clone, Copy, Debug, PartialEq, Eq)]
pub struct EntryFacts {
    /// The number of its file.
    pub file: u32,
    /// Where it begins, in bytes from its file's begin.
    pub start: u64,
    /// Its length in bytes.
    pub len: u64,
    pub vendor: Vendor,
    /// The revision that a core runs after it was written.
    pub rev: u32,
    /// Intel: the day of the update, as mmddyyyy in binary-coded decimal.
    pub date: u32,
    /// Intel: the least revision that a core has to run for a load without a reboot to be safe, or 0 for none.
    pub min: u32,
    /// Intel: the signature in the update's header.
    pub sig: u32,
    /// Intel: the processor flags in the update's header.
    pub flags: u32,
    /// AMD: the id by which an equivalence table names the patch.
    pub id: u16,
    /// AMD: the family of the processors that the patch is for.
    pub family: u16,
}
