ghost use Rattle.std.specs.Prelude.{◌≡◌, ℕ, ◌+◌, ◌≤◌, List, ◌∷◌, [], Some, length, take, drop, filter, MatchOption};
ghost use Rattle.std.specs.Iterator.{YieldsFirstBy, item_count};
ghost use Rattle.std.specs.List.{position_or_len};
ghost use Rattle.std.specs.Str.Lines.{strip_carriage_return};
ghost use Rattle.uc_text.specs.Lines.{is_line_feed, is_blank, is_in_word, numbered_lines, words_of, counts};
ghost use Rattle.uc_text.specs.Numbers.{number_of};

use crate::numbers::leading_number;
use memchr::memchr;
use std::marker::Model;

/// A line of a text: its number, from 1, and its bytes, without the LF that ends it and without one CR before that.
#[derive(Clone, Copy, Debug)]
pub struct Line<'a> {
    pub number: u32,
    pub text: &'a [u8],
}

/// The lines of a text: the pieces between LF bytes. An empty last piece is no line. One CR at the end of a line is
/// dropped, also of a last line without LF. A contract sees the lines that are left, with their numbers.
#[derive(Debug, Drop)]
pub struct Lines<'a> {
    rest: &'a [u8],
    number: u32,
}

impl<'a> Model for Lines<'a> {
    ghost use Rattle.std.specs.Prelude.{ℕ, ◌+◌, ◌≤◌, List, length};
    ghost use Rattle.std.specs.List.{enumerate_from};
    ghost use Rattle.uc_text.specs.Lines.{lines_of};

    ghost Value = { List (ℕ × List ℕ) };

    ghost view = { λ lines. enumerate_from lines.number (lines_of lines.rest.now) };

    ghost invariant = { λ lines. lines.number + length lines.rest.now ≤ 16777217 };
}

impl<'a> Lines<'a> {
    /// The lines of a text of at most 16,777,216 bytes.
    pub fn new(bytes: &'a [u8]) -> Self
        requires { length bytes.now ≤ 16777216 }
        ensures { result ≡ numbered_lines bytes.now }
    {
        Lines {
            rest: bytes,
            number: 1,
        }
    }

    /// The next line that counts: those without words, and those that begin with `#`, are passed over.
    pub fn next_counted(&mut self) -> Option<Line<'a>>
        ensures { MatchOption result ((filter counts self.old ≡ []) × (filter counts self.new ≡ [])) (λ line. filter counts self.old ≡ (line.number, line.text.now) ∷ filter counts self.new) }
    {
        while let Some(line) = self.next() {
            if counts(&line) {
                return Some(line);
            }
        }
        None
    }
}

#[tactic(auto, using(crate::proofs::Pieces::has_words))]
fn counts(line: &Line) -> bool
    ensures { result ≡ counts (line.now.number, line.now.text.now) }
{
    word_at(line.text) < line.text.len() && line.text.first() != Some(&b'#')
}

impl<'a> Iterator for Lines<'a> {
    type Item = Line<'a>;

    ghost next_gives = { YieldsFirstBy (λ line. (line.number, line.text.now)) (λ lines. lines) };

    ghost remaining = { item_count (λ lines. lines) };

    fn next(&mut self) -> Option<Line<'a>> {
        if self.rest.is_empty() {
            return None;
        }
        let (piece, rest) = split_around(self.rest, line_feed_at(self.rest));
        let line = Line {
            number: self.number,
            text: without_carriage_return(piece),
        };
        self.rest = rest;
        self.number += 1;
        Some(line)
    }
}

/// Where the first LF stands, or the length where there is none.
fn line_feed_at(bytes: &[u8]) -> usize
    ensures value { result ≡ position_or_len is_line_feed bytes.now }
    ensures within { result ≤ length bytes.now }
{
    memchr(b'\n', bytes).unwrap_or(bytes.len())
}

/// The bytes before a place and those after it; all of them, and none, where the place is the end.
fn split_around(bytes: &[u8], at: usize) -> (&[u8], &[u8])
    requires { at ≤ length bytes.now }
    ensures front { result.0.now ≡ take at bytes.now }
    ensures back { result.1.now ≡ drop (at + 1) bytes.now }
{
    let (front, back) = bytes.split_at(at);
    match back {
        [_, back @ ..] => (front, back),
        [] => (front, back),
    }
}

fn without_carriage_return(line: &[u8]) -> &[u8]
    ensures { result.now ≡ strip_carriage_return line.now }
{
    match line {
        [front @ .., b'\r'] => front,
        _ => line,
    }
}

/// A word that is one byte and the decimal digits of a number.
#[derive(Clone, Copy, Debug)]
pub struct Marked {
    pub mark: u8,
    pub number: u32,
}

/// The words of a text: the longest runs of bytes other than space and tab. A contract sees the words that are left.
#[derive(Debug, Drop)]
pub struct Words<'a> {
    rest: &'a [u8],
}

impl<'a> Model for Words<'a> {
    ghost use Rattle.std.specs.Prelude.{ℕ, List};
    ghost use Rattle.uc_text.specs.Lines.{words_of};

    ghost Value = { List (List ℕ) };

    ghost view = { λ words. words_of words.rest.now };
}

impl<'a> Words<'a> {
    pub fn new(text: &'a [u8]) -> Self
        ensures { result ≡ words_of text.now }
    {
        Words { rest: text }
    }

    /// The next word, where it is one byte and the decimal digits of a number, in one step over its bytes. Where it isn't,
    /// and where the number passes 32 bits, `None`, and the word is left; also where one more blank stands before it.
    pub fn next_marked(&mut self) -> Option<Marked>
        ensures { MatchOption result (self.new ≡ self.old) (λ word. (digits : List ℕ) × (self.old ≡ (word.mark ∷ digits) ∷ self.new) × (number_of digits ≡ Some word.number)) }
    {
        let (mark, text) = match self.rest {
            [mark, text @ ..] => (*mark, text),
            [] => return None,
        };
        if is_blank(mark) {
            return None;
        }
        let (number, count) = leading_number(text)?;
        match text.split_at(count).1 {
            [] => self.rest = b"",
            [byte, rest @ ..] => {
                if !is_blank(*byte) {
                    return None;
                }
                self.rest = rest;
            }
        }
        Some(Marked { mark, number })
    }
}

impl<'a> Iterator for Words<'a> {
    type Item = &'a [u8];

    ghost next_gives = { YieldsFirstBy (λ word. word.now) (λ words. words) };

    ghost remaining = { item_count (λ words. words) };

    fn next(&mut self) -> Option<&'a [u8]> {
        let (_, text) = self.rest.split_at(word_at(self.rest));
        let (word, rest) = split_around(text, blank_at(text));
        if word.is_empty() {
            return None;
        }
        self.rest = rest;
        Some(word)
    }
}

/// Where the first word begins, or the length where there is none.
fn word_at(text: &[u8]) -> usize
    ensures value { result ≡ position_or_len is_in_word text.now }
    ensures within { result ≤ length text.now }
{
    text.iter()
        .position(|byte| !is_blank(*byte))
        .unwrap_or(text.len())
}

/// Where the first blank stands, or the length where there is none.
fn blank_at(text: &[u8]) -> usize
    ensures value { result ≡ position_or_len is_blank text.now }
    ensures within { result ≤ length text.now }
{
    text.iter()
        .position(|byte| is_blank(*byte))
        .unwrap_or(text.len())
}

fn is_blank(byte: u8) -> bool
    ensures { result ≡ is_blank byte }
{
    byte == b' ' || byte == b'\t'
}
