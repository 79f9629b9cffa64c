//! The names of a command.
ghost use Rattle.std.specs.Prelude.{◌≡◌, true, drop, IfOk};
ghost use Rattle.std.specs.List.{list_all};
ghost use Rattle.std.specs.Str.{is_utf8};
ghost use Rattle.uc_text.specs.Lines.{words_of};

use script_text::Names;
use std::alloc::Global;
use uc_bytes::{NoMemory, Text};
use uc_text::Words;

/// The words of a line after its first, which are names.
pub fn names_of(alloc: Global, line: &[u8]) -> Result<Names, NoMemory>
    requires { list_all is_utf8 (drop 1 (words_of line.now)) ≡ true }
    ensures { IfOk result (λ names. names ≡ drop 1 (words_of line.now)) }
{
    let mut words = Words::new(line);
    let _ = words.next();
    let mut names = Names::new(alloc);
    for word in words {
        names.push(text_of(alloc, word)?)?;
    }
    Ok(names)
}

/// A word in UTF-8 as a text.
fn text_of(alloc: Global, word: &[u8]) -> Result<Text, NoMemory>
    requires { is_utf8 word.now ≡ true }
    ensures { IfOk result (λ text. text ≡ word.now) }
{
    let text = String::from_str(alloc, str::from_utf8(word).unwrap())?;
    Ok(Text::new(text))
}
