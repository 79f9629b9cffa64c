//! The numbers of commands.
ghost use Rattle.std.specs.Prelude.{◌≡◌, [], slice_index_or};
ghost use Rattle.uc_text.specs.Lines.{words_of};
ghost use Rattle.uc_text.specs.Numbers.{number_of};
ghost use Rattle.uc_script.specs.Answers.{IsStated, IsBelow};

use script_text::ScriptCause;
use uc_text::{Words, number};

/// The second word of a line; the empty one where there is none.
fn second_word(line: &[u8]) -> &[u8]
    ensures { result.now ≡ slice_index_or (words_of line.now) 1 [] }
{
    let mut words = Words::new(line);
    let _ = words.next();
    words.next().unwrap_or(b"")
}

/// The number that the second word of a line spells.
pub fn stated_number(line: &[u8]) -> Result<u64, ScriptCause>
    ensures { IsStated (number_of (slice_index_or (words_of line.now) 1 [])) result }
{
    match number(second_word(line)) {
        Some(number) => Ok(number),
        None => Err(ScriptCause::Number),
    }
}

/// The thread or core that the second word of a line spells, of so many.
pub fn stated_below(line: &[u8], count: u16) -> Result<u16, ScriptCause>
    ensures { IsBelow (number_of (slice_index_or (words_of line.now) 1 [])) count result }
{
    let number = stated_number(line)?;
    if number < u64::from(count) {
        Ok(number as u16)
    } else {
        Err(ScriptCause::Range)
    }
}
