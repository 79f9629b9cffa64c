//! The rule of the command line.
ghost use Rattle.std.specs.Prelude.{◌≡◌, ◌+◌, ◌≤◌, ◌<◌, Ok, Err, IfOk};
ghost use Rattle.tool_text.specs.Words.{asked, list_asked, show_asked, select_asked, play_asked, gen_asked};
ghost use Rattle.tool_text.specs.Words.{is_name, may_name, wrong_word};
ghost use Rattle.uc_cli.specs.Words.{Asks, HasFewNames};

use tool_text::MOST_FILES;
use uc_bytes::Text;
use uc_text::number;

/// A command with its words.
#[derive(Clone, Copy, Debug)]
pub enum Command<'a> {
    /// `list FILE..`
    List(&'a [Text]),
    /// `show FILE N`
    Show(&'a Text, u64),
    /// `select TOPOLOGY FILE..`
    Select(&'a Text, &'a [Text]),
    /// `play TOPOLOGY SCRIPT`
    Play(&'a Text, &'a Text),
    /// `gen NUMBER`
    Gen(u64),
}

/// Whether a word may stand for the name of a file.
pub fn is_name(word: &Text) -> bool
    ensures { result ≡ is_name word.now }
{
    !word.as_str().starts_with('-')
}

/// The index of the first word that is no name or stands behind the last index that one may have, where the words are
/// numbered from `first` on; or `first`, where there is no word.
fn wrong_name(words: &[Text], first: u32, last: u32) -> Option<u32>
    requires within { first ≤ last }
    requires small { last < 100 }
    ensures { result ≡ wrong_word (may_name last) (first + 1) first words.now }
{
    if words.is_empty() {
        return Some(first);
    }
    let mut index = first;
    'names: for word in words {
        if index > last || !is_name(word) {
            return Some(index);
        }
        index += 1;
    }
    None
}

/// The words behind `list`.
fn list_words(words: &[Text]) -> Result<Command<'_>, u32>
    ensures asks { Asks (list_asked words.now) result }
    ensures few { IfOk result HasFewNames }
{
    match wrong_name(words, 1, MOST_FILES) {
        Some(index) => Err(index),
        None => Ok(Command::List(words)),
    }
}

/// The words behind `show`.
fn show_words(words: &[Text]) -> Result<Command<'_>, u32>
    ensures asks { Asks (show_asked words.now) result }
    ensures few { IfOk result HasFewNames }
{
    match words {
        [] => Err(1),
        [name, ..] if !is_name(name) => Err(1),
        [_] => Err(2),
        [name, spelling, more @ ..] => match number(spelling.as_str().as_bytes()) {
            None => Err(2),
            Some(number) => {
                if more.is_empty() {
                    Ok(Command::Show(name, number))
                } else {
                    Err(3)
                }
            }
        },
    }
}

/// The words behind `select`.
fn select_words(words: &[Text]) -> Result<Command<'_>, u32>
    ensures asks { Asks (select_asked words.now) result }
    ensures few { IfOk result HasFewNames }
{
    let [topology, names @ ..] = words else {
        return Err(1);
    };
    if !is_name(topology) {
        return Err(1);
    }
    match wrong_name(names, 2, 1 + MOST_FILES) {
        Some(index) => Err(index),
        None => Ok(Command::Select(topology, names)),
    }
}

/// The words behind `play`.
fn play_words(words: &[Text]) -> Result<Command<'_>, u32>
    ensures asks { Asks (play_asked words.now) result }
    ensures few { IfOk result HasFewNames }
{
    match words {
        [] => Err(1),
        [topology, ..] if !is_name(topology) => Err(1),
        [_topology] => Err(2),
        [_, script, ..] if !is_name(script) => Err(2),
        [topology, script, more @ ..] => {
            if more.is_empty() {
                Ok(Command::Play(topology, script))
            } else {
                Err(3)
            }
        }
    }
}

/// The words behind `gen`.
fn gen_words(words: &[Text]) -> Result<Command<'_>, u32>
    ensures asks { Asks (gen_asked words.now) result }
    ensures few { IfOk result HasFewNames }
{
    let [spelling, more @ ..] = words else {
        return Err(1);
    };
    match number(spelling.as_str().as_bytes()) {
        None => Err(1),
        Some(number) => {
            if more.is_empty() {
                Ok(Command::Gen(number))
            } else {
                Err(2)
            }
        }
    }
}

/// The command that the words ask for, or the index of the first word that cannot stand in its place, which is the
/// number of words where one is missing.
pub fn read_words(words: &[Text]) -> Result<Command<'_>, u32>
    ensures asks { Asks (asked words.now) result }
    ensures few { IfOk result HasFewNames }
{
    let [command, rest @ ..] = words else {
        return Err(0);
    };
    match command.as_str() {
        "list" => list_words(rest),
        "show" => show_words(rest),
        "select" => select_words(rest),
        "play" => play_words(rest),
        "gen" => gen_words(rest),
        _ => Err(0),
    }
}
