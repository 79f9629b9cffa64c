//! The control words of one plan, shared by the threads that hold its posts.

ghost use Rattle.std.specs.Prelude.{◌≡◌};
ghost use Rattle.ctl_words.specs.Plans.{plan_of, IsSound};
ghost use Rattle.ctl_words.specs.Places.{word_count};
ghost use Rattle.ctl_table.specs.Exact.{exact_plan_of, HasRoom};

use crate::closed::Closed;
use crate::copies::copied;
use crate::exact_outcomes::ExactOutcome;
use crate::exact_plans::ExactPlan;
use crate::last::Last;
use crate::openings::opening_words;
use crate::posts::Post;
use crate::standings::{Handing, Rules, Taking, View};
use atomic_table::Table;
use ctl_thread::opening;
use ctl_words::Plan;
use std::alloc::Global;
use uc_bytes::NoMemory;

/// The control words of one plan. Posts step on them through a `&Bay`, each from whatever thread holds it. The plan is
/// in a box, since each of its tables has 256 places: it is copied once, and let go when the bay is closed. What is
/// kept then, `exact_plan` and `outcome`, has its memory from the beginning.
#[derive(Drop)]
pub struct Bay {
    pub(crate) plan: Box<Plan>,
    pub(crate) table: Table<(), View, Plan, Rules, Global>,
    pub(crate) exact_plan: ExactPlan,
    pub(crate) outcome: ExactOutcome,
    ghost sound: { IsSound plan.value },
    ghost keyed: { table.shared.key ≡ plan.value },
    ghost no_slots: { table.shared.table_id.slots ≡ 0 },
    ghost sized: { table.shared.table_id.words ≡ word_count (plan_of plan.value) },
    ghost same_plan: { exact_plan_of exact_plan ≡ plan_of plan.value },
    ghost room: { HasRoom (plan_of plan.value) outcome },
}

impl Bay {
    ghost use Rattle.std.specs.Prelude.{◌+◌, ◌<◌, ◌≤◌, ◌||◌, IfOk, IsTrue};
    ghost use Rattle.rendezvous_steps.specs.StepTable.{opening, is_last};
    ghost use Rattle.ctl_table.specs.Posts.{plan_in, thread_of, phase_of, given_by, joined_by, is_late};
    ghost use Rattle.ctl_table.specs.Posts.{IsOf, Opens, HasGiven, HasJoined};
    ghost use Rattle.ctl_table.specs.Closes.{Shows};

    /// A bay in which the rendezvous of the plan begins, and thread 0's post. It answers want of memory and nothing
    /// else.
    pub fn new(alloc: Global, plan: &Plan) -> Result<(Bay, Post), NoMemory>
        requires sound { IsSound plan.now }
        requires few { plan.now.threads ≤ 32 }
        ensures plan { IfOk result (λ made. plan_in made.0 ≡ plan_of plan.now) }
        ensures ours { IfOk result (λ made. IsOf made.0 made.1) }
        ensures opens { IfOk result (λ made. Opens (plan_of plan.now) 0 made.1) }
    {
        let words = opening_words(alloc, plan)?;
        let exact_plan = ExactPlan::of(alloc, plan)?;
        let outcome = ExactOutcome::with_room(alloc, plan)?;
        let plan = Box::new(alloc, copied(plan))?;
        let (table, seat) = Table::of_words(alloc, &words, &*plan)?;
        let post = Post {
            seat,
            thread: 0,
            local: opening(&plan, 0),
            given: 0,
            joined: 0,
            late: false,
        };
        let bay = Bay {
            plan,
            table,
            exact_plan,
            outcome,
        };
        Ok((bay, post))
    }

    /// The post of the next thread. It takes no memory.
    pub fn split(&self, post: &mut Post) -> Post
        requires ours { IsOf self.now post.old }
        requires first { thread_of post.old ≡ 0 }
        requires room { given_by post.old + 1 < (plan_in self.now).threads }
        ensures ours { IsOf self.now post.new × IsOf self.now result }
        ensures next { Opens (plan_in self.now) (given_by post.old + 1) result }
        ensures given { HasGiven post.old post.new }
    {
        let seat = self.table.shared.split_seat::<Handing>(&mut post.seat);
        post.given += 1;
        Post {
            seat,
            thread: post.given,
            local: opening(&self.plan, post.given),
            given: 0,
            joined: 0,
            late: false,
        }
    }

    /// Takes in the post of a thread that has come to its last phase. Thread 0's post is late from then on where the
    /// other was.
    pub fn join(&self, post: &mut Post, other: Post)
        requires ours { IsOf self.now post.old × IsOf self.now other }
        requires first { thread_of post.old ≡ 0 }
        requires ended { IsTrue (is_last (phase_of other)) }
        ensures ours { IsOf self.now post.new }
        ensures joined { HasJoined post.old other post.new }
    {
        let Post { seat, late, .. } = other;
        self.table.shared.join_seat::<Taking>(&mut post.seat, seat);
        post.joined = post.joined.saturating_add(1);
        post.late = post.late || late;
    }

    /// What the rendezvous came to, when thread 0's post has joined all others. It takes no memory. The rule holds of
    /// the words at the end, the state that they show is safe, and the outcome is that of this state. Where the post is
    /// not late, the load went on and no thread halted.
    pub fn close(self, post: Post) -> Closed
        requires ours { IsOf self post }
        requires first { thread_of post ≡ 0 }
        requires ended { IsTrue (is_last (phase_of post)) }
        requires all { joined_by post + 1 ≡ (plan_in self).threads }
        ensures { Shows (plan_in self) (is_late post) result }
    {
        let Bay {
            plan,
            table,
            exact_plan,
            mut outcome,
        } = self;
        let Post { seat, late, .. } = post;
        let words = table.close_with(seat);
        let last = Last {
            plan: &plan,
            words: &words,
        };
        last.fill(&mut outcome);
        words.free();
        Closed {
            plan: exact_plan,
            outcome,
            late,
        }
    }
}
