ghost use Rattle.std.specs.Prelude.{◌≡◌};

/// The header of an update: the twelve words at its front, as they stand there.
#[derive(Clone, Copy, Debug, PartialEq, Eq)]
pub struct IntelHeader {
    /// The header's version, which is 1.
    pub version: u32,
    /// The update's revision.
    pub rev: u32,
    /// The day of the update, as mmddyyyy in binary-coded decimal: 0x07112023 is 2023-07-11.
    pub date: u32,
    /// The signature of the processor that the update is for, as CPUID leaf 1 gives it.
    pub sig: u32,
    /// What makes the sum of the words of header and data 0.
    pub cksum: u32,
    /// The revision of the loader, which is 1.
    pub loader: u32,
    /// The processor flags: bit n stands for platform n.
    pub flags: u32,
    /// The size of the data in bytes, or 0 for 2,000.
    pub size_field: u32,
    /// The size of the whole update in bytes, which counts only where the data's size is not 0.
    pub total_field: u32,
    /// The size of the metadata in bytes.
    pub meta: u32,
    /// The least revision that the processor has to run for a load without a reboot to be safe, or 0 for none.
    pub min: u32,
    pub reserved: u32,
}

impl IntelHeader {
    ghost use Rattle.intel_format.specs.Header.{data_len, total_len};

    /// The length of the data in bytes.
    pub fn data_len(&self) -> u32
        ensures { result ≡ data_len self.now }
    {
        if self.size_field == 0 {
            2_000
        } else {
            self.size_field
        }
    }

    /// The length of the update in bytes: header, data and table.
    pub fn total_len(&self) -> u32
        ensures { result ≡ total_len self.now }
    {
        if self.size_field == 0 {
            2_048
        } else {
            self.total_field
        }
    }
}
