//! One thread's worker.

ghost use Rattle.std.specs.Prelude.{◌≡◌, IsTrue};
ghost use Rattle.rendezvous_steps.specs.StepTable.{is_last};
ghost use Rattle.ctl_words.specs.Plans.{plan_of};
ghost use Rattle.ctl_table.specs.Posts.{plan_in};

use crate::gates::{Gate, Point};
use ctl_table::{Bay, Phase, Plan, Post, Seen, What};
use std::sync::Wait;
use std::thread::yield_now;

/// What every worker of a run has.
#[derive(Drop)]
pub struct Worker<'a, G> {
    pub bay: &'a Bay,
    pub plan: &'a Plan,
    pub gate: &'a G,
    ghost its_plan: { plan_of plan.now ≡ plan_in bay.now },
}

impl<G: Gate> Worker<'_, G> {
    ghost use Rattle.ctl_table.specs.Posts.{phase_of, IsOf};
    ghost use Rattle.uc_live.specs.Chains.{Stays};

    /// Steps a post from its thread's beginning to its end, as far as the turns of a loop go.
    pub fn work(&self, mut post: Post) -> Post
        requires { IsOf self.now.bay.now post }
        ensures ours { IsOf self.now.bay.now result }
        ensures stays { Stays post result }
    {
        self.begin(&post);
        for _ in 0..u64::MAX {
            if has_ended(post.phase()) {
                self.end(&post);
                break;
            }
            self.turn(&mut post);
        }
        post
    }

    /// Steps a post on to its end, if it has not come to it.
    pub fn finish<R: Wait>(&self, rt: &R, mut post: Post) -> Post
        requires { IsOf self.now.bay.now post }
        ensures ours { IsOf self.now.bay.now result }
        ensures stays { Stays post result }
        ensures ended { IsTrue (is_last (phase_of result)) }
    {
        if has_ended(post.phase()) {
            return post;
        }
        for _ in rt.forever() {
            self.turn(&mut post);
            if has_ended(post.phase()) {
                self.end(&post);
                return post;
            }
        }
        unreachable!()
    }

    /// One step, or a timeout where the thread has waited as long as the plan lets it. Where it has to wait, it lets
    /// others run.
    fn turn(&self, post: &mut Post)
        requires { IsOf self.now.bay.now post.old }
        ensures ours { IsOf self.now.bay.now post.new }
        ensures stays { Stays post.old post.new }
    {
        let before = post.phase();
        let seen = if post.waits() && post.polls() == self.plan.patience {
            self.bay.time_out(post)
        } else {
            self.bay.step(post)
        };
        match seen {
            Seen::NotYet => yield_now(),
            Seen::Moved(what) => self.tell(post.thread(), what, before, post.phase()),
            Seen::Finished => {}
        }
    }

    /// How many threads the plan has.
    pub fn threads(&self) -> u16
        ensures { result ≡ (plan_in self.now.bay.now).threads }
    {
        self.plan.threads
    }

    fn begin(&self, post: &Post) {
        let thread = post.thread();
        self.gate.at(thread, Point::Outside);
        if self.plan.kind_of(thread).is_online() {
            self.gate.ordinary(thread);
        }
    }

    fn end(&self, post: &Post) {
        let thread = post.thread();
        self.gate.at(thread, Point::Left);
        if self.plan.kind_of(thread).is_online() && matches!(post.phase(), Phase::Left) {
            self.gate.ordinary(thread);
        }
    }

    fn tell(&self, thread: u16, what: What, before: Phase, after: Phase) {
        let point = match what {
            What::Enter => Some(Point::Entered),
            What::Arrive => Some(Point::Arrived),
            What::Begin(_) => Some(Point::Begun),
            What::Wrote(_, _) => Some(Point::Wrote),
            What::Report(_, _) => Some(Point::Reported),
            _ if awaits_decision(before) && !awaits_decision(after) => Some(Point::Decided),
            _ => None,
        };
        if let Some(point) = point {
            self.gate.at(thread, point);
        }
    }
}

/// Whether a thread has come to its last phase.
fn has_ended(phase: Phase) -> bool
    ensures { result ≡ is_last phase }
{
    matches!(
        phase,
        Phase::Left | Phase::Halted | Phase::Withdrawn | Phase::Nothing
    )
}

/// Whether an Online thread in the handler has not come past the decision.
fn awaits_decision(phase: Phase) -> bool {
    matches!(
        phase,
        Phase::OfflineWait | Phase::Arriving | Phase::Deciding | Phase::Waiting
    )
}
