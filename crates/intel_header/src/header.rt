ghost use Rattle.intel_header.specs.Reading.{IsHeaderRead};
ghost use Rattle.std.specs.Prelude.{◌≡◌, ◌≤◌, length};
ghost use Rattle.intel_format.specs.Header.{header_of};

use intel_format::IntelHeader;
use uc_bytes::{FileCause, word_at};

/// Why a header is none, in the order of the checks. Intel SDM volume 3A, "Microcode Update Facilities".
#[derive(Clone, Copy, Debug, PartialEq, Eq)]
pub enum HeaderFault {
    /// Fewer than 48 bytes.
    Short,
    /// A data length or a total length that is no multiple of 4.
    SizeUnaligned,
    /// A total length below 48 bytes.
    TotalSmall,
    /// A header and data that pass the total length.
    DataPastTotal,
    /// A header version or a loader revision that is not 1.
    Version,
}

impl From<HeaderFault> for FileCause {
    ghost use Rattle.intel_header.specs.Reading.{cause_of};

    ghost from_gives = { λ fault cause. cause ≡ cause_of fault };

    fn from(fault: HeaderFault) -> FileCause {
        match fault {
            HeaderFault::Short => FileCause::Short,
            HeaderFault::SizeUnaligned => FileCause::SizeUnaligned,
            HeaderFault::TotalSmall => FileCause::TotalSmall,
            HeaderFault::DataPastTotal => FileCause::DataPastTotal,
            HeaderFault::Version => FileCause::Version,
        }
    }
}

/// The twelve words at the front.
fn words_of(bytes: &[u8]) -> IntelHeader
    requires { 48 ≤ length bytes.now }
    ensures { result ≡ header_of bytes.now }
{
    IntelHeader {
        version: word_at(bytes, 0),
        rev: word_at(bytes, 4),
        date: word_at(bytes, 8),
        sig: word_at(bytes, 12),
        cksum: word_at(bytes, 16),
        loader: word_at(bytes, 20),
        flags: word_at(bytes, 24),
        size_field: word_at(bytes, 28),
        total_field: word_at(bytes, 32),
        meta: word_at(bytes, 36),
        min: word_at(bytes, 40),
        reserved: word_at(bytes, 44),
    }
}

/// The header at the front of the bytes, or the first check that fails. Bytes after the header do not count.
pub fn read_header(bytes: &[u8]) -> Result<IntelHeader, HeaderFault>
    ensures { IsHeaderRead bytes.now result }
{
    if bytes.len() < 48 {
        return Err(HeaderFault::Short);
    }
    let header = words_of(bytes);
    let data_len = header.data_len();
    let total_len = header.total_len();
    if data_len % 4 != 0 || total_len % 4 != 0 {
        return Err(HeaderFault::SizeUnaligned);
    }
    if total_len < 48 {
        return Err(HeaderFault::TotalSmall);
    }
    if total_len - 48 < data_len {
        return Err(HeaderFault::DataPastTotal);
    }
    if header.version != 1 || header.loader != 1 {
        return Err(HeaderFault::Version);
    }
    Ok(header)
}
