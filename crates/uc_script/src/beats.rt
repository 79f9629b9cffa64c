//! The schedules of loads.
ghost use Rattle.std.specs.Prelude.{◌≡◌, false, drop, slice_index, IfOk, IfSome, MatchOption, MatchResult};
ghost use Rattle.uc_text.specs.Lines.{words_of};
ghost use Rattle.script_text.specs.Forms.{is_beat};
ghost use Rattle.script_text.specs.Within.{fits_beat, events_of_beat};
ghost use Rattle.uc_script.specs.FirstLine.{left_words, left_text};
ghost use Rattle.uc_script.specs.declared.answer.LineAnswer.TheVariants.{NoMemory as LineNoMemory};
ghost use Rattle.uc_script.specs.Schedules.{IsBeatOf, IsNextBeat, IsScheduled, Counted, IsFirstBeat, IsFirstEvent};
ghost use Rattle.uc_script.specs.Schedules.{AddsBeats, AddsLine};

use crate::answer::LineAnswer;
use crate::rest::split_line;
use crate::shorts::{first_of_two_bytes, first_short};
use rendezvous_steps::Beat;
use script_text::{BeatKind, Beats, Limits, ScriptCause};
use uc_bytes::NoMemory;
use uc_text::{Words, number};

/// The events that one load may have.
pub const MOST_EVENTS: u64 = 4_194_304;

/// A beat that the first word of a text states, what follows the word and the byte behind it, and whether that byte
/// ends the line.
#[derive(Clone, Copy, Debug)]
struct FirstBeat<'a> {
    beat: Beat,
    rest: &'a [u8],
    is_last: bool,
}

/// The beat of the first word of a text, where the word is short and states one.
#[inline(always)]
fn first_beat(limits: Limits, text: &[u8]) -> Option<FirstBeat<'_>>
    ensures { IfSome result (λ first. IsFirstBeat limits text.now first.beat first.rest.now first.is_last) }
{
    let word = first_short(text)?;
    match read_beat(limits, word.mark, Some(u64::from(word.number))) {
        Ok(beat) => Some(FirstBeat {
            beat,
            rest: word.rest,
            is_last: word.is_last,
        }),
        Err(_) => None,
    }
}

/// Puts the beats of the first line of a text behind those of its load, whose events are counted, and returns what
/// follows the line, where it begins with a short word that states a beat. Where it doesn't, nothing is taken.
#[inline(always)]
pub fn add_line<'a>(
    limits: Limits,
    text: &'a [u8],
    beats: &mut Beats,
    events: &mut u64,
) -> Option<Result<&'a [u8], LineAnswer>>
    requires { Counted limits beats.old events.old }
    ensures { MatchOption result ((beats.new ≡ beats.old) × (events.new ≡ events.old))
        (AddsLine limits text.now beats.old beats.new events.new) }
{
    let first = first_beat(limits, text)?;
    *events = events.saturating_add(events_of(limits, first.beat));
    match beats.push(first.beat) {
        Ok(()) => Some(add_words(limits, first.rest, first.is_last, beats, events)),
        Err(NoMemory) => Some(Err(LineAnswer::NoMemory)),
    }
}

/// Puts the beats of what is left of a line behind those of its load, and returns what follows the line.
#[inline(always)]
fn add_words<'a>(
    limits: Limits,
    text: &'a [u8],
    is_done: bool,
    beats: &mut Beats,
    events: &mut u64,
) -> Result<&'a [u8], LineAnswer>
    requires { Counted limits beats.old events.old }
    ensures scheduled { IsScheduled limits (left_words text.now is_done) beats.old beats.new events.new result }
    ensures rest { IfOk result (λ rest. rest.now ≡ left_text text.now is_done) }
{
    let (mut rest, mut is_done) = (text, is_done);
    while !is_done {
        let left = add_short(limits, rest, beats, events)?;
        let Some(first) = first_beat(limits, left) else {
            let (line, rest) = split_line(left);
            add_beats(limits, line, beats, events)?;
            return Ok(rest);
        };
        *events = events.saturating_add(events_of(limits, first.beat));
        beats.push(first.beat)?;
        rest = first.rest;
        is_done = first.is_last;
    }
    if *events > MOST_EVENTS {
        return Err(LineAnswer::Cause(ScriptCause::TooMany));
    }
    Ok(rest)
}

/// Does as `add_run` where a word of two bytes stands at the front of a text, and nothing where a longer one does.
#[inline(always)]
fn add_short<'a>(
    limits: Limits,
    text: &'a [u8],
    beats: &mut Beats,
    events: &mut u64,
) -> Result<&'a [u8], LineAnswer>
    requires { Counted limits beats.old events.old }
    ensures { MatchResult result
        (λ rest. AddsBeats limits text.now beats.old rest.now beats.new × Counted limits beats.new events.new)
        (λ answer. answer ≡ LineNoMemory) }
{
    match text {
        [_, _, b' ', ..] => add_run(limits, text, beats, events),
        _ => Ok(text),
    }
}

/// Puts the beats of the words at the front of a text behind those of their load, as long as each has two bytes and a
/// space stands behind it, and returns what follows them. Most words of a long line are so.
#[inline(always)]
fn add_run<'a>(
    limits: Limits,
    text: &'a [u8],
    beats: &mut Beats,
    events: &mut u64,
) -> Result<&'a [u8], LineAnswer>
    requires { Counted limits beats.old events.old }
    ensures { MatchResult result
        (λ rest. AddsBeats limits text.now beats.old rest.now beats.new × Counted limits beats.new events.new)
        (λ answer. answer ≡ LineNoMemory) }
{
    let (mut rest, mut count) = (text, *events);
    while let Some(first) = first_of_run(limits, rest) {
        count = count.saturating_add(events_of(limits, first.beat));
        beats.push(first.beat)?;
        rest = first.rest;
    }
    *events = count;
    Ok(rest)
}

/// The beat of the first word of a text, where it has two bytes and a space stands behind it.
#[inline(always)]
fn first_of_run(limits: Limits, text: &[u8]) -> Option<FirstBeat<'_>>
    ensures { IfSome result (λ first. IsFirstBeat limits text.now first.beat first.rest.now false) }
{
    let word = first_of_two_bytes(text, false)?;
    let beat = beat_of(limits, word.mark, word.number)?;
    Some(FirstBeat {
        beat,
        rest: word.rest,
        is_last: false,
    })
}

/// An event that the first word of a text states, and what follows the word and the byte behind it.
#[derive(Clone, Copy, Debug)]
pub struct FirstEvent<'a> {
    pub event: Beat,
    pub rest: &'a [u8],
}

/// The event of the first word of a text, where it has two bytes, and a space stands behind it, or an LF where the line
/// is to end.
#[inline(always)]
pub fn first_event(limits: Limits, text: &[u8], is_last: bool) -> Option<FirstEvent<'_>>
    ensures { IfSome result (λ first. IsFirstEvent limits text.now first.event first.rest.now is_last) }
{
    let word = first_of_two_bytes(text, is_last)?;
    let event = event_of(limits, word.mark, word.number)?;
    Some(FirstEvent {
        event,
        rest: word.rest,
    })
}

/// The event of a mark, where it is one of an event, and of a thread, where it is there.
#[inline(always)]
fn event_of(limits: Limits, mark: u8, thread: u16) -> Option<Beat>
    ensures { IfSome result
        (λ event. IsBeatOf limits mark (Some thread) (Ok event) × (events_of_beat limits event ≡ 1)) }
{
    match beat_of(limits, mark, thread) {
        Some(Beat::Rounds(_)) => None,
        beat => beat,
    }
}

/// The beat of a mark and a number, where they state one.
#[inline(always)]
fn beat_of(limits: Limits, mark: u8, number: u16) -> Option<Beat>
    ensures { IfSome result (λ beat. IsBeatOf limits mark (Some number) (Ok beat)) }
{
    let beat = match mark {
        b's' => Beat::Step(number),
        b't' => Beat::Timeout(number),
        b'n' => Beat::Nmi(number),
        b'r' => Beat::Run(number),
        b'*' => Beat::Rounds(number),
        _ => return None,
    };
    if fits(limits, beat) { Some(beat) } else { None }
}

/// Puts the beats of a line behind those of its load, whose events are counted.
pub fn add_beats(
    limits: Limits,
    line: &[u8],
    beats: &mut Beats,
    events: &mut u64,
) -> Result<(), LineAnswer>
    requires { Counted limits beats.old events.old }
    ensures { IsScheduled limits (words_of line.now) beats.old beats.new events.new result }
{
    let mut words = Words::new(line);
    let mut spelled = true;
    let mut in_range = true;
    while let Some(read) = next_beat(limits, &mut words) {
        match read {
            Ok(beat) => {
                *events = events.saturating_add(events_of(limits, beat));
                beats.push(beat)?;
            }
            Err(ScriptCause::Number) => spelled = false,
            Err(ScriptCause::Range) => in_range = false,
            Err(cause) => return Err(LineAnswer::Cause(cause)),
        }
    }
    if !spelled {
        Err(LineAnswer::Cause(ScriptCause::Number))
    } else if !in_range {
        Err(LineAnswer::Cause(ScriptCause::Range))
    } else if *events > MOST_EVENTS {
        Err(LineAnswer::Cause(ScriptCause::TooMany))
    } else {
        Ok(())
    }
}

/// The beat that the next word states, or the first check that fails at it alone; none where no word is left. A short
/// number is read in the step that finds the word.
fn next_beat(limits: Limits, words: &mut Words) -> Option<Result<Beat, ScriptCause>>
    ensures { IsNextBeat limits words.old words.new result }
{
    if let Some(word) = words.next_marked() {
        return Some(read_beat(limits, word.mark, Some(u64::from(word.number))));
    }
    let word = words.next()?;
    Some(read_beat(limits, first_byte(word), number(after_first(word))))
}

/// The beat of a word by its first byte and the number that the rest spells, where it does; or the first check that
/// fails.
#[inline(always)]
fn read_beat(limits: Limits, first: u8, number: Option<u64>) -> Result<Beat, ScriptCause>
    ensures { IsBeatOf limits first number result }
{
    let Some(kind) = BeatKind::of(first) else {
        return Err(ScriptCause::Word);
    };
    let Some(value) = number else {
        return Err(ScriptCause::Number);
    };
    let beat = kind.with((value % (1 << 16)) as u16);
    if value < 1 << 16 && fits(limits, beat) {
        Ok(beat)
    } else {
        Err(ScriptCause::Range)
    }
}

/// Whether a word has the form of a beat, whatever follows its first byte.
pub fn is_beat(word: &[u8]) -> bool
    ensures { result ≡ is_beat word.now }
{
    BeatKind::of(first_byte(word)).is_some()
}

/// The first byte of a word; 0 where it has none.
fn first_byte(word: &[u8]) -> u8
    ensures { result ≡ slice_index word.now 0 }
{
    word.first().copied().unwrap_or(0)
}

/// What follows the first byte.
fn after_first(word: &[u8]) -> &[u8]
    ensures { result.now ≡ drop 1 word.now }
{
    match word {
        [_, text @ ..] => text,
        [] => word,
    }
}

/// Whether the thread of an event is there, or the rounds are some.
fn fits(limits: Limits, beat: Beat) -> bool
    ensures { result ≡ fits_beat limits beat }
{
    match beat {
        Beat::Step(thread) | Beat::Timeout(thread) | Beat::Nmi(thread) | Beat::Run(thread) => thread
            < limits.threads,
        Beat::Rounds(rounds) => rounds >= 1,
    }
}

/// A round is one event of each thread.
fn events_of(limits: Limits, beat: Beat) -> u64
    ensures { result ≡ events_of_beat limits beat }
{
    match beat {
        Beat::Rounds(rounds) => u64::from(rounds) * u64::from(limits.threads),
        _ => 1,
    }
}
