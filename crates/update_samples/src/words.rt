//! Words as bytes.
ghost use Rattle.std.specs.Prelude.{◌≡◌, ◌++◌, IfOk, OnOk};
ghost use Rattle.update_samples.specs.Words.{bytes_of};

use std::alloc::{AllocError, Global};

/// Puts words behind the bytes, the lowest byte of each first.
pub fn push_words(bytes: &mut Vec<u8>, words: &[u32]) -> Result<(), AllocError>
    ensures { OnOk result (bytes.new.items ≡ bytes.old.items ++ bytes_of words.now) }
{
    'words: for word in words {
        bytes.extend_from_slice(&word.to_le_bytes())?;
    }
    Ok(())
}

/// The bytes of words.
pub fn bytes_of(alloc: Global, words: &[u32]) -> Result<Vec<u8>, AllocError>
    ensures { IfOk result (λ bytes. bytes.items ≡ bytes_of words.now) }
{
    let mut bytes = Vec::new(alloc);
    push_words(&mut bytes, words)?;
    Ok(bytes)
}
