//! What the control words show of a thread.

ghost use Rattle.std.specs.Prelude.{◌≡◌, ◌||◌, ◌<◌, ◌≤◌, ◌+◌, ◌^◌, ℕ, cond, not};
ghost use Rattle.rendezvous_steps.specs.declared.operations.Word.TheVariants.{Mode, Nmi};
ghost use Rattle.rendezvous_steps.specs.Events.{is_inside, shows_left, shows_halted, shows_withdrawn, shows_held};
ghost use Rattle.rendezvous_steps.specs.Events.{shows_finished};
ghost use Rattle.rendezvous_steps.specs.StepTable.{write_of};
ghost use Rattle.ctl_words.specs.Lists.{word_of};
ghost use Rattle.ctl_words.specs.Plans.{plan_of, IsSound};
ghost use Rattle.ctl_core.specs.Moments.{unfinished_in, unfinished_from, owner, is_end};
ghost use Rattle.uc_rendezvous.specs.Ends.{end_in};

use ctl_words::{PlainWords, Plan};
use rendezvous_steps::{End, Kind, ThreadResult, Word};

#[inline(always)]
pub fn has_left(words: &PlainWords, thread: u16) -> bool
    ensures { result ≡ shows_left (word_of words.now) thread }
{
    words.get(Word::Mode(thread)) >= 8
}

#[inline(always)]
pub fn has_halted(words: &PlainWords, thread: u16) -> bool
    ensures { result ≡ shows_halted (word_of words.now) thread }
{
    words.get(Word::Ctrl(thread)) == 3
}

#[inline(always)]
pub fn is_withdrawn(words: &PlainWords, plan: &Plan, thread: u16) -> bool
    ensures { result ≡ shows_withdrawn (plan_of plan.now) (word_of words.now) thread }
{
    plan.kind_of(thread).is_offline() && words.get(Word::Nmi(thread)) == 3
}

/// Whether it left or was withdrawn.
pub fn is_over(words: &PlainWords, plan: &Plan, thread: u16) -> bool
    ensures { result
        ≡ (shows_left (word_of words.now) thread || shows_withdrawn (plan_of plan.now) (word_of words.now) thread) }
{
    has_left(words, thread) || is_withdrawn(words, plan, thread)
}

/// Whether it left, halted, was withdrawn, or takes no part.
#[inline(always)]
pub fn is_finished(words: &PlainWords, plan: &Plan, thread: u16) -> bool
    ensures { result ≡ shows_finished (plan_of plan.now) (word_of words.now) thread }
{
    has_left(words, thread)
        || has_halted(words, thread)
        || is_withdrawn(words, plan, thread)
        || plan.kind_of(thread).is_absent()
}

/// Whether it is in the handler and has not halted.
pub fn is_held(words: &PlainWords, plan: &Plan, thread: u16) -> bool
    ensures { result ≡ shows_held (plan_of plan.now) (word_of words.now) thread }
{
    is_inside(words, plan, thread) && !has_halted(words, thread)
}

fn is_inside(words: &PlainWords, plan: &Plan, thread: u16) -> bool
    ensures { let word = word_of words.now in
        result ≡ is_inside ((plan_of plan.now).kind thread) (word (Mode thread)) (word (Nmi thread)) }
{
    let mode = words.get(Word::Mode(thread));
    match plan.kind_of(thread) {
        Kind::Online => mode == 1 || mode == 2,
        Kind::Offline => words.get(Word::Nmi(thread)) == 2 && mode == 0,
        Kind::Absent => false,
    }
}

/// The revision that a write leaves: the offer, or the revision at the start where there is none or the group refuses.
fn write_of(plan: &Plan, group: u16) -> u32
    ensures { result ≡ write_of (plan_of plan.now) group }
{
    match plan.offer_of(group) {
        Some(offer) if !plan.refuses(group) => offer,
        _ => plan.rev0_of(group),
    }
}

/// All revisions of a plan, and those that writes leave, are numbers of 32 bits.
pub fn revisions_are_small(plan: &Plan)
    requires { IsSound plan.now }
    ensures first { (g : ℕ) → (plan_of plan.now).rev0 g < 2 ^ 32 }
    ensures writes { (g : ℕ) → write_of (plan_of plan.now) g < 2 ^ 32 }
{
    for group in 0..plan.groups() {
        let _first = plan.rev0_of(group);
        let _write = write_of(plan, group);
    }
}

/// How many threads are unfinished.
pub fn unfinished(words: &PlainWords, plan: &Plan) -> u16
    ensures { result ≡ unfinished_in (plan_of plan.now) (word_of words.now) }
{
    let mut count = 0;
    for thread in 0..plan.threads {
        if !is_finished(words, plan, thread) {
            count += 1;
        }
    }
    count
}

/// The lowest thread that is unfinished.
#[tactic(auto, using(crate::proofs::Searches::unfinished_search))]
pub fn first_unfinished(words: &PlainWords, plan: &Plan) -> Option<u16>
    ensures { result ≡ unfinished_from (plan_of plan.now) (word_of words.now) 0 }
{
    for thread in 0..plan.threads {
        if !is_finished(words, plan, thread) {
            return Some(thread);
        }
    }
    None
}

/// How the thread came out of the rendezvous.
pub fn end(words: &PlainWords, plan: &Plan, thread: u16) -> End
    ensures { result ≡ end_in (plan_of plan.now) (word_of words.now) thread }
{
    let mode = words.get(Word::Mode(thread));
    if has_halted(words, thread) {
        End::Halted
    } else if mode >= 8 {
        End::Left(ThreadResult::from_number(mode - 8))
    } else {
        match plan.kind_of(thread) {
            Kind::Offline if words.get(Word::Nmi(thread)) == 3 => End::Withdrawn,
            Kind::Online | Kind::Offline => End::Unfinished,
            Kind::Absent => End::Absent,
        }
    }
}

/// The number of unfinished threads where one of them was finished or not, and now is or is not.
#[inline(always)]
pub fn recounted(count: u16, was_finished: bool, is_finished: bool) -> u16
    requires room { count + cond was_finished 1 0 < 2 ^ 16 }
    requires some { cond is_finished 1 0 ≤ count + cond was_finished 1 0 }
    ensures { result + cond is_finished 1 0 ≡ count + cond was_finished 1 0 }
{
    match (was_finished, is_finished) {
        (true, false) => count + 1,
        (false, true) => count - 1,
        _ => count,
    }
}

/// The thread that a word is one of.
#[inline(always)]
pub fn owner(word: Word) -> Option<u16>
    ensures { result ≡ owner word }
{
    match word {
        Word::Mode(thread) | Word::Ctrl(thread) | Word::Nmi(thread) => Some(thread),
        Word::Arrive | Word::OffIn | Word::Decide | Word::Rev(_) | Word::Res(_) => None,
    }
}

/// Whether a word of a thread that holds this shows that the thread left, halted, or had its kick taken back.
#[inline(always)]
pub fn is_end(word: Word, value: u64) -> bool
    ensures { result ≡ is_end word value }
{
    match word {
        Word::Mode(_) => value >= 8,
        Word::Ctrl(_) | Word::Nmi(_) => value == 3,
        Word::Arrive | Word::OffIn | Word::Decide | Word::Rev(_) | Word::Res(_) => false,
    }
}
