//! Words of a command line that are no text.
use super::*;
use main_parts::words;
use std::env::{Env, FillError};

/// An environment of a program's name and four words: one that is text, one that is not UTF-8, one that is too long and
/// an empty one.
struct Made;

impl Env for Made {
    fn arg(&self, i: usize, buf: &mut [u8]) -> Result<usize, FillError> {
        let word: &[u8] = match i {
            0 => b"ucode",
            1 => b"l\xc3\xafst",
            2 => b"\xff",
            3 => return Err(FillError::TooLong),
            4 => b"",
            _ => return Err(FillError::NotPresent),
        };
        let Some(place) = buf.get_mut(..word.len()) else {
            return Err(FillError::TooLong);
        };
        place.copy_from_slice(word);
        Ok(word.len())
    }

    fn var(&self, _name: &str, _buf: &mut [u8]) -> Result<usize, FillError> {
        Err(FillError::NotPresent)
    }

    fn var_at(&self, _i: usize, _buf: &mut [u8]) -> Result<usize, FillError> {
        Err(FillError::NotPresent)
    }
}

#[test]
fn a_dash_stands_for_what_is_no_text(rt: HostRuntime) -> Result<(), Fail> {
    let found = words(&Made, rt.alloc())?;
    let wanted = ["lïst", "-", "-", ""];
    assert_eq!(rt; found.len(), wanted.len());
    for (word, want) in found.iter().zip(wanted.iter()) {
        assert_eq!(rt; word.as_str(), *want);
    }
    Ok(())
}
