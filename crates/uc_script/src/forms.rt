//! Whether lines have the forms of their place.
ghost use Rattle.std.specs.Prelude.{◌≡◌, false, IsTrue};
ghost use Rattle.std.specs.List.{list_all};
ghost use Rattle.std.specs.Str.{is_utf8};
ghost use Rattle.uc_text.specs.Lines.{words_of};
ghost use Rattle.script_text.specs.Forms.{is_beat, is_number, are_names, takes_the_rest, have_last, have_form};
ghost use Rattle.script_text.specs.Forms.{has_form, form_of};
ghost use Rattle.script_text.specs.declared.forms.Form.TheVariants.{End};

use crate::beats::is_beat;
use crate::shorts::is_blank;
use script_text::{Form, Place};
use uc_text::Words;

/// The form that a line has at a place, where it has one.
#[tactic(auto, unfolding(script_text::specs::Forms::form_of))]
pub fn form_of(place: Place, line: &[u8]) -> Option<Form>
    ensures { result ≡ form_of place (words_of line.now) }
{
    for form in place.forms() {
        if has_form(form.written(), line) {
            return Some(*form);
        }
    }
    None
}

/// Whether a line has the form that is written as another.
fn has_form(form: &[u8], line: &[u8]) -> bool
    ensures { result ≡ have_form (words_of form.now) (words_of line.now) }
{
    if begins_otherwise(form, line) {
        return false;
    }
    let mut words = Words::new(line);
    for part in Words::new(form) {
        if takes_the_rest(part) {
            return have_last(part, words);
        }
        let Some(word) = words.next() else {
            return false;
        };
        if !is_number(part) && word != part {
            return false;
        }
    }
    words.next().is_none()
}

/// Whether a line ends a load.
#[tactic(auto, using(crate::proofs::Words::not_end, crate::proofs::Words::end_alone))]
pub fn is_end(line: &[u8]) -> bool
    ensures { result ≡ has_form (words_of line.now) End }
{
    if begins_otherwise(b"end", line) {
        return false;
    }
    let mut words = Words::new(line);
    let Some(word) = words.next() else {
        return false;
    };
    if word != b"end".as_slice() {
        return false;
    }
    words.next().is_none()
}

/// Whether a line begins with a word of another first byte than the small letter that begins a form.
#[inline(always)]
fn begins_otherwise(form: &[u8], line: &[u8]) -> bool
    ensures { IsTrue result → have_form (words_of form.now) (words_of line.now) ≡ false }
{
    match (form, line) {
        ([letter @ b'a'..=b'z', ..], [first, ..]) => first != letter && !is_blank(*first),
        _ => false,
    }
}

/// Whether all words that are left stand for the last part of a form.
fn have_last(part: &[u8], words: Words) -> bool
    ensures { result ≡ have_last part.now words.entry }
{
    if part == b"BEAT..".as_slice() {
        are_beats(words)
    } else if part == b"NAME..".as_slice() {
        are_names(1, words)
    } else {
        are_names(0, words)
    }
}

fn takes_the_rest(part: &[u8]) -> bool
    ensures { result ≡ takes_the_rest part.now }
{
    part == b"NAME..".as_slice() || part == b"[NAME..]".as_slice() || part == b"BEAT..".as_slice()
}

fn is_number(part: &[u8]) -> bool
    ensures { result ≡ is_number part.now }
{
    matches!(part, [b'A'..=b'Z', ..])
}

fn are_beats(words: Words) -> bool
    ensures { result ≡ list_all is_beat words.entry }
{
    for word in words {
        if !is_beat(word) {
            return false;
        }
    }
    true
}

fn are_names(least: usize, words: Words) -> bool
    ensures { result ≡ are_names least words.entry }
{
    let mut count = 0;
    for word in words {
        if count == 16 || !is_utf8(word) {
            return false;
        }
        count += 1;
    }
    least <= count
}

fn is_utf8(word: &[u8]) -> bool
    ensures { result ≡ is_utf8 word.now }
{
    str::from_utf8(word).is_ok()
}
