//! The words of the command line.
ghost use Rattle.std.specs.Prelude.{◌≡◌, ◌≤◌, All, length, IfOk, IfSome};
ghost use Rattle.main_parts.specs.Words.{word_from};

use std::alloc::Global;
use std::env::{Env, FillError};
use std::str;
use uc_bytes::{NoMemory, Text};

/// The longest word that Linux hands to a program, in bytes.
const LONGEST_WORD: usize = 131_072;

/// A word as a text.
fn text_of(alloc: Global, word: &str) -> Result<Text, NoMemory>
    ensures { IfOk result (λ text. text ≡ word.now) }
{
    let text = String::from_str(alloc, word)?;
    Ok(Text::new(text))
}

/// A word of the command line. A dash, which can stand in no place there, stands for one that is not UTF-8.
fn word_of(alloc: Global, bytes: &[u8]) -> Result<Text, NoMemory>
    ensures { IfOk result (λ word. word ≡ word_from bytes.now) }
{
    match str::from_utf8(bytes) {
        Ok(word) => text_of(alloc, word),
        Err(_) => text_of(alloc, "-"),
    }
}

/// A buffer of so many bytes.
fn room(alloc: Global, len: usize) -> Result<Vec<u8>, NoMemory>
    ensures { IfOk result (λ room. length room.items ≡ len) }
{
    Ok(vec![in alloc; 0; len]?)
}

/// The word at a place, which the buffer takes; none behind the last.
fn word_at(
    env: &impl Env,
    alloc: Global,
    place: usize,
    buffer: &mut [u8],
) -> Result<Option<Text>, NoMemory>
    requires { 1 ≤ length buffer.old }
    ensures room { length buffer.new ≡ length buffer.old }
    ensures few { IfOk result (λ word. IfSome word (λ word. length word ≤ length buffer.old)) }
{
    match env.arg(place, buffer) {
        Ok(length) => Ok(Some(word_of(alloc, &buffer[..length])?)),
        Err(FillError::TooLong) => Ok(Some(word_of(alloc, b"-")?)),
        Err(FillError::NotPresent) => Ok(None),
    }
}

/// The words after the program's name. A dash stands for one that is not UTF-8 or is longer than Linux hands on.
pub fn words(env: &impl Env, alloc: Global) -> Result<Vec<Text>, NoMemory>
    ensures { IfOk result (λ words. All (λ word. length word ≤ 131072) words.items) }
{
    let mut words = Vec::new(alloc);
    let mut buffer = room(alloc, LONGEST_WORD)?;
    for place in 1..usize::MAX {
        match word_at(env, alloc, place, buffer.as_mut_slice())? {
            Some(word) => words.push(word)?,
            None => break,
        }
    }
    Ok(words)
}
