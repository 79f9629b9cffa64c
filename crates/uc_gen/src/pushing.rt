//! Bytes behind bytes.
ghost use Rattle.std.specs.Prelude.{◌≡◌, ◌+◌, ◌*◌, ◌++◌, length, take, OnOk};
ghost use Rattle.std.specs.List.{flat_map};
ghost use Rattle.uc_gen.specs.Bundle.{bytes_of};

use uc_bytes::{NoMemory, put_word};

/// Puts pieces behind the bytes, one after another.
pub fn push_pieces(bytes: &mut Vec<u8>, pieces: &[&[u8]]) -> Result<(), NoMemory>
    ensures { OnOk result (bytes.new.items ≡ bytes.old.items ++ flat_map (λ piece. piece.now) pieces.now) }
{
    'pieces: for piece in pieces {
        bytes.extend_from_slice(piece)?;
    }
    Ok(())
}

/// Puts words over the bytes from an index on, which are the last ones, the lowest byte of each first.
fn put_words(bytes: &mut [u8], at: usize, words: &[u32])
    requires { at + 4 * length words.now ≡ length bytes.old }
    ensures { bytes.new ≡ take at bytes.old ++ bytes_of words.now }
{
    'words: for k in 0..words.len() {
        put_word(bytes, at + 4 * k, words[k]);
    }
}

/// Puts words behind the bytes, the lowest byte of each first. There is room for all of them at once.
pub fn push_words(bytes: &mut Vec<u8>, words: &[u32]) -> Result<(), NoMemory>
    ensures { OnOk result (bytes.new.items ≡ bytes.old.items ++ bytes_of words.now) }
{
    let at = bytes.len();
    bytes.resize(at + 4 * words.len(), 0)?;
    put_words(bytes, at, words);
    Ok(())
}
