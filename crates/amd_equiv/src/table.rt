ghost use Rattle.std.specs.Prelude.{◌≡◌, ◌<◌, drop, length, slice_index_or};
ghost use Rattle.amd_format.specs.Equiv.{rows_of, id_of};
ghost use Rattle.amd_equiv.specs.Reading.{IsEquivRead};

use crate::fault::EquivFault;
use std::marker::Model;
use uc_bytes::{half_at, word_at};

/// The word that begins a container.
pub const AMD_MAGIC: u32 = 0x0041_4d44;

/// The head and table of a container. A contract sees the list of their bytes.
#[derive(Debug, Drop)]
pub struct EquivTable<'a> {
    bytes: &'a [u8],
}

impl<'a> Model for EquivTable<'a> {
    ghost use Rattle.std.specs.Prelude.{ℕ, List};
    ghost use Rattle.amd_format.specs.Equiv.{IsEquiv};

    ghost Value = { List ℕ };

    ghost view = { λ t. t.bytes.now };

    ghost invariant = { λ t. IsEquiv t.bytes.now };
}

impl<'a> EquivTable<'a> {
    ghost use Rattle.amd_format.specs.Equiv.{IsEquiv};

    /// The table of bytes that are a head and its table, as `read_equiv` found once.
    pub fn whole(bytes: &'a [u8]) -> EquivTable<'a>
        requires { IsEquiv bytes.now }
        ensures { result ≡ bytes.now }
    {
        EquivTable { bytes }
    }

    /// The table without the head.
    fn table(&self) -> &[u8]
        ensures { result.now ≡ drop 12 self.now }
    {
        &self.bytes[12..]
    }

    /// How many rows there are: bytes after the last whole row of 16 bytes are none.
    pub fn rows(&self) -> u32
        ensures { result ≡ length (rows_of self.now) }
    {
        word_at(self.bytes, 8) / 16
    }

    /// A processor's signature, and the id of the patches that are for it.
    pub fn row(&self, i: u32) -> (u32, u16)
        requires { i < length (rows_of self.now) }
        ensures { result ≡ slice_index_or (rows_of self.now) i (0, 0) }
    {
        let table = self.table();
        let at = 16 * i as usize;
        (word_at(table, at), half_at(table, 12 + at))
    }

    /// The length in bytes of head and table.
    pub fn len(&self) -> u64
        ensures { result ≡ length self.now }
    {
        self.bytes.len() as u64
    }

    /// The id in the first row with a processor's signature, or 0, which means none, where no row has it. Linux 6.7,
    /// `arch/x86/kernel/cpu/microcode/amd.c`, find_equiv_id.
    pub fn id_of(&self, sig: u32) -> u16
        ensures { result ≡ id_of (rows_of self.now) sig }
    {
        for i in 0..self.rows() {
            let (row_sig, id) = self.row(i);
            if row_sig == sig {
                return id;
            }
        }
        0
    }
}

/// The head and table that begin the bytes, which may go on after them; or the first check that fails.
pub fn read_equiv(bytes: &[u8]) -> Result<EquivTable<'_>, EquivFault>
    ensures { IsEquivRead bytes.now result }
{
    if bytes.len() < 12 {
        return Err(EquivFault::Short);
    }
    if word_at(bytes, 0) != AMD_MAGIC {
        return Err(EquivFault::Magic);
    }
    if word_at(bytes, 4) != 0 {
        return Err(EquivFault::Type0);
    }
    let table_len = word_at(bytes, 8);
    if table_len < 16 {
        return Err(EquivFault::TableSmall);
    }
    let whole = 12 + table_len as usize;
    if bytes.len() < whole {
        return Err(EquivFault::TableCut);
    }
    Ok(EquivTable {
        bytes: &bytes[..whole],
    })
}
