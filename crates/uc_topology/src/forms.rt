ghost use Rattle.std.specs.Prelude.{◌≡◌, ◌≤◌, length, MatchOption, None, Some};
ghost use Rattle.uc_text.specs.Lines.{words_of};
ghost use Rattle.uc_text.specs.Numbers.{spelled, below};
ghost use Rattle.uc_topology.specs.Forms.{is_number, limit_of, have_form, numbers_of};

use arrayvec::ArrayVec;
use uc_text::{Words, number};

/// The two versions of the text: in version 1 each core is a group, in version 2 the cores of a package are one.
#[derive(Clone, Copy, Debug, PartialEq, Eq)]
pub enum Version {
    Cores,
    Packages,
}

/// Whether a line has a form. A form is written as a line: its capital letters stand for numbers.
pub fn has_form(form: &[u8], line: &[u8]) -> bool
    ensures { result ≡ have_form (words_of form.now) (words_of line.now) }
{
    let mut words = Words::new(line);
    for part in Words::new(form) {
        let Some(word) = words.next() else {
            return false;
        };
        if !is_number(part) && word != part {
            return false;
        }
    }
    words.next().is_none()
}

/// The numbers of a line that has a form, where each has a spelling and fits its width.
pub fn numbers_in(form: &[u8], line: &[u8]) -> Option<ArrayVec<u32, 10>>
    requires { length (words_of form.now) ≤ 10 }
    ensures { MatchOption result (numbers_of (words_of form.now) (words_of line.now) ≡ None) (λ numbers. numbers_of (words_of form.now) (words_of line.now) ≡ Some numbers.items) }
{
    let mut numbers = ArrayVec::new();
    let mut words = Words::new(line);
    for part in Words::new(form) {
        let Some(word) = words.next() else {
            return Some(numbers);
        };
        if is_number(part) {
            numbers.push(number_for(part, word)?);
        }
    }
    Some(numbers)
}

/// The number that a word spells in a form's place.
fn number_for(part: &[u8], word: &[u8]) -> Option<u32>
    ensures { result ≡ below (limit_of part.now) (spelled word.now) }
{
    let value = number(word)?;
    if value < limit_of(part) {
        Some(value as u32)
    } else {
        None
    }
}

fn is_number(part: &[u8]) -> bool
    ensures { result ≡ is_number part.now }
{
    matches!(part, [b'A'..=b'Z', ..])
}

fn limit_of(part: &[u8]) -> u64
    ensures { result ≡ limit_of part.now }
{
    match part {
        [b'C' | b'T' | b'P', ..] => 1 << 16,
        _ => 1 << 32,
    }
}
