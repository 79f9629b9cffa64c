//! The line of an item, composed in a fixed buffer.

ghost use Rattle.std.specs.Prelude.{◌≡◌, ◌+◌, ◌<◌, ◌≤◌, ◌++◌, length, codes, decimal};
ghost use Rattle.arrayvec.specs.ArrayVec.{array_vec_len};
ghost use Rattle.rendezvous_steps.specs.declared.items.What.TheVariants.{Wrote, Report, Leave};
ghost use Rattle.rendezvous_steps.specs.ItemText.{result_text, item_line};
ghost use Rattle.ctl_core.specs.Lines.{words_line};

use arrayvec::ArrayVec;
use itoa::Buffer;
use rendezvous_steps::{Item, ThreadResult, What};
use uc_text::hex8;

/// `T WORDS` and a line feed in place of what the line held: the thread, and what it did.
#[inline(always)]
#[tactic(auto, unfolding(rendezvous_steps::specs::ItemText::item_line))]
pub fn compose(line: &mut ArrayVec<u8, 64>, item: &Item)
    ensures { line.new.items ≡ item_line item.now }
{
    line.clear();
    add_number(line, item.thread);
    add_what(line, item.what);
}

#[inline(always)]
fn add(line: &mut ArrayVec<u8, 64>, piece: &[u8])
    requires { array_vec_len line.old + length piece.now ≤ 64 }
    ensures items { line.new.items ≡ line.old.items ++ piece.now }
    ensures len { array_vec_len line.new ≡ array_vec_len line.old + length piece.now }
{
    line.try_extend_from_slice(piece).unwrap();
}

/// A number in decimal. That of a thread or a group has at most three digits, which are copied at once.
#[inline(always)]
fn add_number(line: &mut ArrayVec<u8, 64>, number: u16)
    requires { array_vec_len line.old ≤ 44 }
    ensures items { line.new.items ≡ line.old.items ++ decimal number }
    ensures len { array_vec_len line.new ≤ array_vec_len line.old + 20 }
{
    if number < 10 {
        add(line, &one_digit(number));
    } else if number < 100 {
        add(line, &two_digits(number));
    } else if number < 1000 {
        add(line, &three_digits(number));
    } else {
        add(line, Buffer::new().format(number).as_bytes());
    }
}

#[inline(always)]
#[tactic(auto, using(crate::proofs::Decimals::decimal_one))]
fn one_digit(number: u16) -> [u8; 1]
    requires { number < 10 }
    ensures { result ≡ decimal number }
{
    [digit(number)]
}

#[inline(always)]
#[tactic(auto, using(crate::proofs::Decimals::decimal_two))]
fn two_digits(number: u16) -> [u8; 2]
    requires two { 10 ≤ number }
    requires no_more { number < 100 }
    ensures { result ≡ decimal number }
{
    [digit(number / 10), digit(number % 10)]
}

#[inline(always)]
#[tactic(auto, using(crate::proofs::Decimals::decimal_three))]
fn three_digits(number: u16) -> [u8; 3]
    requires three { 100 ≤ number }
    requires no_more { number < 1000 }
    ensures { result ≡ decimal number }
{
    let tens = number / 10;
    [digit(tens / 10), digit(tens % 10), digit(number % 10)]
}

#[inline(always)]
fn digit(value: u16) -> u8
    requires { value < 10 }
    ensures { result ≡ 48 + value }
{
    b'0' + value as u8
}

/// A word of at most 11 bytes, a number and a line feed.
#[inline(always)]
fn add_numbered(line: &mut ArrayVec<u8, 64>, word: &[u8], number: u16)
    requires room { array_vec_len line.old ≤ 20 }
    requires short { length word.now ≤ 11 }
    ensures { line.new.items ≡ line.old.items ++ (word.now ++ (decimal number ++ codes "\n")) }
{
    add(line, word);
    add_number(line, number);
    add(line, b"\n");
}

/// A space, what a thread leaves with, and a line feed.
#[inline(always)]
fn add_result(line: &mut ArrayVec<u8, 64>, left: ThreadResult)
    requires { array_vec_len line.old ≤ 50 }
    ensures { line.new.items ≡ line.old.items ++ (codes " " ++ (result_text left ++ codes "\n")) }
{
    match left {
        ThreadResult::Updated => add(line, b" updated\n"),
        ThreadResult::Okay => add(line, b" ok\n"),
        ThreadResult::Current => add(line, b" current\n"),
        ThreadResult::Error => add(line, b" error\n"),
        ThreadResult::Timeout => add(line, b" timeout\n"),
        ThreadResult::Offline => add(line, b" offline\n"),
    }
}

/// ` wrote G HEX` and a line feed.
fn add_wrote(line: &mut ArrayVec<u8, 64>, group: u16, revision: u32)
    requires { array_vec_len line.old ≤ 20 }
    ensures { line.new.items ≡ line.old.items ++ words_line (Wrote group revision) }
{
    add(line, b" wrote ");
    add_number(line, group);
    add(line, b" ");
    add(line, &hex8(revision));
    add(line, b"\n");
}

/// ` report G RESULT` and a line feed.
fn add_report(line: &mut ArrayVec<u8, 64>, group: u16, left: ThreadResult)
    requires { array_vec_len line.old ≤ 20 }
    ensures { line.new.items ≡ line.old.items ++ words_line (Report group left) }
{
    add(line, b" report ");
    add_number(line, group);
    add_result(line, left);
}

/// ` leave RESULT` and a line feed.
fn add_leave(line: &mut ArrayVec<u8, 64>, left: ThreadResult)
    requires { array_vec_len line.old ≤ 20 }
    ensures { line.new.items ≡ line.old.items ++ words_line (Leave left) }
{
    add(line, b" leave");
    add_result(line, left);
}

/// A space, what a thread did, and a line feed. Where it is one word, all is one text.
#[inline(always)]
fn add_what(line: &mut ArrayVec<u8, 64>, what: What)
    requires { array_vec_len line.old ≤ 20 }
    ensures { line.new.items ≡ line.old.items ++ words_line what }
{
    match what {
        What::Enter => add(line, b" enter\n"),
        What::Kick(thread) => add_numbered(line, b" kick ", thread),
        What::Arrive => add(line, b" arrive\n"),
        What::Go => add(line, b" go\n"),
        What::Drop => add(line, b" drop\n"),
        What::DropKick => add(line, b" drop-kick\n"),
        What::Withdraw(thread) => add_numbered(line, b" withdraw ", thread),
        What::Begin(group) => add_numbered(line, b" begin ", group),
        What::Wrote(group, revision) => add_wrote(line, group, revision),
        What::Report(group, left) => add_report(line, group, left),
        What::Free(thread) => add_numbered(line, b" free ", thread),
        What::Leave(left) => add_leave(line, left),
        What::Halt => add(line, b" halt\n"),
        What::Ordinary => add(line, b" ordinary\n"),
        What::Poll => add(line, b" poll\n"),
        What::Inner => add(line, b" inner\n"),
        What::Latched => add(line, b" latched\n"),
        What::Idle => add(line, b" idle\n"),
    }
}
