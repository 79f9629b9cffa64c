//! The text that is left of a script, line by line.
ghost use Rattle.std.specs.Prelude.{◌≡◌, ◌+◌, ◌≤◌, ◌∷◌, [], length, take, drop, filter, MatchOption, OnOk};
ghost use Rattle.std.specs.List.{position_or_len};
ghost use Rattle.std.specs.Str.Lines.{strip_carriage_return};
ghost use Rattle.uc_text.specs.Lines.{is_line_feed, counts, numbered_lines};
ghost use Rattle.uc_script.specs.FirstLine.{first_line, after_line};
ghost use Rattle.uc_script.specs.EventLines.{ReadsOn};
ghost use Rattle.uc_script.specs.Schedules.{Counted, AddsShortLine};

use crate::answer::ScriptAnswer;
use crate::beats::{MOST_EVENTS, add_line, first_event};
use memchr::memchr;
use script_text::{Beats, Limits};
use std::marker::Model;
use uc_bytes::NoMemory;
use uc_text::{Line, Words};

/// What is left of a text, from the begin of a line. A contract sees the lines that are left, with their numbers.
#[derive(Debug, Drop)]
pub struct Rest<'a> {
    text: &'a [u8],
    number: u32,
}

impl<'a> Model for Rest<'a> {
    ghost use Rattle.std.specs.Prelude.{ℕ, ◌+◌, ◌≤◌, List, length};
    ghost use Rattle.std.specs.List.{enumerate_from};
    ghost use Rattle.uc_text.specs.Lines.{lines_of};

    ghost Value = { List (ℕ × List ℕ) };

    ghost view = { λ rest. enumerate_from rest.number (lines_of rest.text.now) };

    ghost invariant = { λ rest. rest.number + length rest.text.now ≤ 16777217 };
}

impl<'a> Rest<'a> {
    /// A text of at most 16,777,216 bytes.
    pub fn new(bytes: &'a [u8]) -> Self
        requires { length bytes.now ≤ 16777216 }
        ensures { result ≡ numbered_lines bytes.now }
    {
        Rest {
            text: bytes,
            number: 1,
        }
    }

    /// The next line that counts: those without words, and those that begin with `#`, are passed over.
    pub fn next_counted(&mut self) -> Option<Line<'a>>
        ensures { MatchOption result ((filter counts self.old ≡ []) × (filter counts self.new ≡ []))
            (λ line. filter counts self.old ≡ (line.number, line.text.now) ∷ filter counts self.new) }
    {
        while let Some(line) = self.next_line() {
            if counts(&line) {
                return Some(line);
            }
        }
        None
    }

    /// The next line, whether it counts or not.
    #[inline(always)]
    fn next_line(&mut self) -> Option<Line<'a>>
        ensures { MatchOption result ((self.old ≡ []) × (self.new ≡ []))
            (λ line. self.old ≡ (line.number, line.text.now) ∷ self.new) }
    {
        if self.text.is_empty() {
            return None;
        }
        let (line, text) = split_line(self.text);
        let line = Line {
            number: self.number,
            text: line,
        };
        self.text = text;
        self.number += 1;
        Some(line)
    }

    /// Puts the events of the next lines behind the beats of their load, as long as each line is one word of two bytes
    /// and the load may have one more event. Scripts often have one event in a line, so these cost no look at others.
    #[inline(always)]
    pub fn add_event_lines(
        &mut self,
        limits: Limits,
        beats: &mut Beats,
        events: &mut u64,
    ) -> Result<(), NoMemory>
        requires { Counted limits beats.old events.old }
        ensures { OnOk result
            (ReadsOn limits (filter counts self.old) beats.old (filter counts self.new) beats.new
            × Counted limits beats.new events.new) }
    {
        let (mut text, mut number) = (self.text, self.number);
        while *events < MOST_EVENTS {
            let Some(first) = first_event(limits, text, true) else {
                break;
            };
            beats.push(first.event)?;
            *events += 1;
            text = first.rest;
            number += 1;
        }
        self.text = text;
        self.number = number;
        Ok(())
    }

    /// Puts the beats of the next line behind those of its load, whose events are counted, where the line begins with a
    /// short word that states a beat. Where it doesn't, nothing is taken.
    #[inline(always)]
    pub fn add_short_line(
        &mut self,
        limits: Limits,
        beats: &mut Beats,
        events: &mut u64,
    ) -> Option<Result<(), ScriptAnswer>>
        requires { Counted limits beats.old events.old }
        ensures { MatchOption result ((self.new ≡ self.old) × (beats.new ≡ beats.old) × (events.new ≡ events.old))
            (λ added. AddsShortLine limits (filter counts self.old) beats.old
            (filter counts self.new) beats.new events.new added) }
    {
        match add_line(limits, self.text, beats, events)? {
            Ok(text) => {
                self.text = text;
                self.number += 1;
                Some(Ok(()))
            }
            Err(answer) => Some(Err(answer.at(self.number))),
        }
    }
}

#[inline(always)]
fn counts(line: &Line) -> bool
    ensures { result ≡ counts (line.now.number, line.now.text.now) }
{
    line.text.first() != Some(&b'#') && Words::new(line.text).next().is_some()
}

/// Where the first LF stands, or the length where there is none. Lines that are skipped are mostly short, so they are
/// gone through byte by byte.
#[inline(always)]
fn line_feed_at(text: &[u8]) -> usize
    ensures value { result ≡ position_or_len is_line_feed text.now }
    ensures within { result ≤ length text.now }
{
    match text {
        [b'#' | b'\n', ..] => text
            .iter()
            .position(|byte| *byte == b'\n')
            .unwrap_or(text.len()),
        _ => memchr(b'\n', text).unwrap_or(text.len()),
    }
}

/// The first line of a text, and what follows it; no bytes, and none, where the text is empty.
#[inline(always)]
pub fn split_line(text: &[u8]) -> (&[u8], &[u8])
    ensures line { result.0.now ≡ first_line text.now }
    ensures rest { result.1.now ≡ after_line text.now }
{
    let (piece, rest) = split_around(text, line_feed_at(text));
    (without_carriage_return(piece), rest)
}

/// The bytes before a place and those after it; all of them, and none, where the place is the end.
#[inline(always)]
fn split_around(bytes: &[u8], at: usize) -> (&[u8], &[u8])
    requires { at ≤ length bytes.now }
    ensures front { result.0.now ≡ take at bytes.now }
    ensures back { result.1.now ≡ drop (at + 1) bytes.now }
{
    let (front, back) = bytes.split_at(at);
    match back {
        [_, back @ ..] => (front, back),
        [] => (front, back),
    }
}

#[inline(always)]
fn without_carriage_return(line: &[u8]) -> &[u8]
    ensures { result.now ≡ strip_carriage_return line.now }
{
    match line {
        [front @ .., b'\r'] => front,
        _ => line,
    }
}
