//! One step of a post.

ghost use Rattle.std.specs.Prelude.{◌≡◌, ◌||◌, true, false, Some, IsTrue};
ghost use Rattle.rendezvous_steps.specs.declared.steps.How.TheVariants.{Step, Timeout};
ghost use Rattle.rendezvous_steps.specs.StepTable.{operation};
ghost use Rattle.rule_laws.specs.Kept.{is_step};
ghost use Rattle.ctl_table.specs.Standings.{makes_late, moved_view};
ghost use Rattle.ctl_table.specs.Posts.{plan_in, thread_of, local_of, phase_of, polls_of, is_waiting, IsOf, MayTurn};
ghost use Rattle.ctl_table.specs.Seen.{Took, gives_up_in};

use crate::bays::Bay;
use crate::posts::Post;
use crate::seen::Seen;
use crate::standings::{InTime, Manner, TooLate, Turn, View};
use atomic_table::Seat;
use ctl_thread::{after, next};
use rendezvous_steps::{How, Op};

impl Bay {
    /// One operation of the post's thread. It takes no memory and waits for nobody. The thread goes on as the step
    /// table says of what its word held. It never gives up on others, and the post is late only where it was.
    pub fn step(&self, post: &mut Post) -> Seen
        requires ours { IsOf self.now post.old }
        ensures took { Took (plan_in self.now) Step post.old post.new result }
        ensures patient { gives_up_in result ≡ false }
        ensures ours { IsOf self.now post.new }
    {
        match next(&self.plan, post.thread, &post.local, How::Step) {
            Some(op) => self.turn::<InTime>(post, How::Step, op),
            None => Seen::Finished,
        }
    }

    /// One operation of a thread that has waited as long as the plan lets it. It gives up where nothing has come
    /// meanwhile. It takes no memory and waits for nobody, and the post is late from then on.
    pub fn time_out(&self, post: &mut Post) -> Seen
        requires ours { IsOf self.now post.old }
        requires waits { IsTrue (is_waiting (phase_of post.old)) }
        requires patience { polls_of post.old ≡ (plan_in self.now).patience }
        ensures took { Took (plan_in self.now) Timeout post.old post.new result }
        ensures ours { IsOf self.now post.new }
    {
        let Some(op) = next(&self.plan, post.thread, &post.local, How::Timeout) else {
            unreachable!()
        };
        self.turn::<TooLate>(post, How::Timeout, op)
    }

    fn turn<H: Manner>(&self, post: &mut Post, how: How, op: Op) -> Seen
        requires ours { IsOf self.now post.old }
        requires next { operation (plan_in self.now) (thread_of post.old) (local_of post.old) how ≡ Some op }
        requires how { H.how ≡ how }
        requires steps { is_step how ≡ true }
        ensures took { Took (plan_in self.now) how post.old post.new result }
        ensures ours { IsOf self.now post.new }
    {
        let found = self.perform::<H>(&mut post.seat, op);
        let (local, what) = after(&self.plan, post.thread, &post.local, how, found);
        let late = late_after(post.late, how);
        post.local = local;
        post.late = late;
        Seen::of(what)
    }

    /// One atomic operation on the word that it names. What is stored is swapped in, so that all tell what they found.
    fn perform<H: Manner>(&self, seat: &mut Seat<(), View>, op: Op) -> u64
        requires may { MayTurn self.now H.how seat.old op }
        ensures same { (seat.new.table_id ≡ seat.old.table_id) × (seat.new.id ≡ seat.old.id) }
        ensures turned { seat.new.me ≡ (moved_view H.how seat.old.me.0 result, seat.old.me.1) }
    {
        let table = &self.table.shared;
        let place = self.plan.place(op.word()) as usize;
        match op {
            Op::Load(_) => table.load::<Turn<H>>(seat, place),
            Op::Store(_, new) => table.swap::<Turn<H>>(seat, place, new),
            Op::Add(_, by) => table.fetch_add::<Turn<H>>(seat, place, by),
            Op::Sub(_, by) => table.fetch_sub::<Turn<H>>(seat, place, by),
            Op::Cas(_, expected, new) => table.compare_exchange::<Turn<H>>(
                seat, place, expected, new,
            ),
        }
    }
}

/// Whether a post that was late or not is so after an operation.
fn late_after(late: bool, how: How) -> bool
    ensures { result ≡ (late || makes_late how) }
{
    late || matches!(how, How::Timeout)
}
