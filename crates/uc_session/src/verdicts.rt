//! The verdict on what a rendezvous came to.

ghost use Rattle.std.specs.Prelude.{◌≡◌, ◌+◌, ◌-◌, ◌<◌, ◌≤◌, length};
ghost use Rattle.rendezvous_model.specs.Verdict.{end_at, load_verdict, lowest, some_updated};
ghost use Rattle.rendezvous_model.specs.Verdict.{withdrawn_count};
ghost use Rattle.session_steps.specs.Step.{answer_of};
ghost use Rattle.ctl_words.specs.Plans.{plan_of};
ghost use Rattle.uc_rendezvous.specs.Outcomes.{outcome_of};
ghost use Rattle.uc_session.specs.Verdicts.{answered, passes, IsVerdict};

use ctl_words::Plan;
use session_steps::rendezvous_steps::{End, ThreadResult};
use session_steps::session_text::LoadAnswer;
use uc_rendezvous::Outcome;

/// What is looked for among the ends of threads.
#[derive(Clone, Copy, Debug, PartialEq, Eq)]
enum Look {
    Halted,
    Unfinished,
    /// A primary that left with Error: its group refused the write.
    Refused,
}

/// The end of a thread; past the last one it took no part.
fn end_at(outcome: &Outcome, t: u16) -> End
    ensures { result ≡ end_at (outcome_of outcome.now) t }
{
    outcome
        .ends
        .get(usize::from(t))
        .copied()
        .unwrap_or(End::Absent)
}

fn passes(look: Look, plan: &Plan, outcome: &Outcome, t: u16) -> bool
    ensures { result ≡ passes look (plan_of plan.now) (outcome_of outcome.now) t }
{
    let end = end_at(outcome, t);
    match look {
        Look::Halted => matches!(end, End::Halted),
        Look::Unfinished => matches!(end, End::Unfinished),
        Look::Refused => {
            t == plan.primary_of(plan.group_of(t)) && matches!(end, End::Left(ThreadResult::Error))
        }
    }
}

/// The lowest thread of which this holds.
#[tactic(auto, using(crate::proofs::Searches::lowest_search))]
fn lowest(look: Look, plan: &Plan, outcome: &Outcome) -> Option<u16>
    ensures { result ≡ lowest (plan_of plan.now) (passes look (plan_of plan.now) (outcome_of outcome.now)) }
{
    for t in 0..plan.threads {
        if passes(look, plan, outcome, t) {
            return Some(t);
        }
    }
    None
}

/// How many kicks were taken back.
fn withdrawn_count(outcome: &Outcome) -> u16
    ensures { result ≡ withdrawn_count (outcome_of outcome.now) }
{
    outcome
        .ends
        .iter()
        .filter(|end| matches!(end, End::Withdrawn))
        .count() as u16
}

/// Whether a thread left with success.
fn some_updated(outcome: &Outcome) -> bool
    ensures { result ≡ some_updated (outcome_of outcome.now) }
{
    outcome
        .ends
        .iter()
        .any(|end| matches!(end, End::Left(ThreadResult::Updated)))
}

/// The thread, of so many, that a decision names.
fn dropper(decide: u64, _threads: u16) -> u16
    requires dropped { 3 ≤ decide }
    requires within { decide < 3 + _threads }
    ensures { result ≡ decide - 3 }
{
    (decide - 3) as u16
}

/// The first that holds, in the order of the definition.
#[tactic(auto, unfolding(rendezvous_model::specs::Verdict::load_verdict))]
fn first_that_holds(plan: &Plan, outcome: &Outcome) -> LoadAnswer
    requires { outcome.now.decide < 3 + plan.now.threads }
    ensures { answered result ≡ answer_of (load_verdict (plan_of plan.now) (outcome_of outcome.now)) }
{
    if let Some(t) = lowest(Look::Halted, plan, outcome) {
        return LoadAnswer::Panicked(t);
    }
    if let Some(t) = lowest(Look::Unfinished, plan, outcome) {
        return LoadAnswer::Unfinished(t);
    }
    if outcome.decide == 2 {
        return LoadAnswer::OfflineSilent(withdrawn_count(outcome));
    }
    if outcome.decide >= 3 {
        return LoadAnswer::TimedOut(dropper(outcome.decide, plan.threads));
    }
    match lowest(Look::Refused, plan, outcome) {
        Some(t) if some_updated(outcome) => LoadAnswer::Incomplete(t),
        Some(t) => LoadAnswer::Failed(t),
        None => LoadAnswer::Done,
    }
}

/// What a load answers whose rendezvous came to an outcome, the first that holds: the lowest thread that halted; the
/// lowest that is unfinished; that thread 0 gave up on the kicked, with how many kicks were taken back; the thread that
/// gave up on those that did not arrive; the lowest primary whose group refused, as `Failed` where no thread left with
/// success and else as `Incomplete`; and else `Done`.
pub fn verdict(plan: &Plan, outcome: &Outcome) -> LoadAnswer
    requires ends { length outcome.now.ends.items ≡ plan.now.threads }
    requires decide { outcome.now.decide < 3 + plan.now.threads }
    ensures { IsVerdict (plan_of plan.now) (outcome_of outcome.now) result }
{
    first_that_holds(plan, outcome)
}
