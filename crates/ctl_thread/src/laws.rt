//! What the table promises, in the words of a load. Each law is the contract of a function that does nothing.

ghost use Rattle.std.specs.Prelude.{◌≡◌, ◌≢◌, ℕ, ◌&&◌, ◌||◌, ◌<◌, false, not, IfSome, IsTrue};
ghost use Rattle.rendezvous_steps.specs.declared.steps.Local.{Local};
ghost use Rattle.rendezvous_steps.specs.declared.steps.Phase.TheVariants.{Writing};
ghost use Rattle.rendezvous_steps.specs.declared.steps.How.{How};
ghost use Rattle.rendezvous_steps.specs.declared.steps.How.TheVariants.{Step};
ghost use Rattle.rendezvous_steps.specs.declared.operations.Word.TheVariants.{Decide};
ghost use Rattle.rendezvous_steps.specs.Plan.{Plan, Sound, is_primary};
ghost use Rattle.ctl_words.specs.Places.{is_word};
ghost use Rattle.rendezvous_steps.specs.Words.{touched, written};
ghost use Rattle.rendezvous_steps.specs.StepTable.{operation, after};
ghost use Rattle.ctl_thread.specs.Promises.{is_before_decision, is_after_go, is_leaving, is_of_primary, may_touch};
ghost use Rattle.ctl_thread.specs.Promises.{OnDecide, OnRevision, is_decision_of, gives_up};

/// A thread touches the counts and the decision, its own words and those of its group. It touches another thread's
/// control word only where it frees that thread, and another's kick only where it makes it or takes it back.
pub fn touches_few_words()
    ensures { (plan : Plan) (t : ℕ) (local : Local) (how : How)
        → IfSome (operation plan t local how) (λ op. IsTrue (may_touch plan t local.phase local.at (touched op))) }
{}

/// A decision stays. Where there is none yet, a thread makes it go or a drop of its own, or leaves it.
pub fn decides_once()
    ensures stays { (plan : Plan) (t : ℕ) (local : Local) (how : How) (found : ℕ) → found ≢ 0
        → IfSome (operation plan t local how) (λ op. OnDecide (touched op) (written op found ≡ found)) }
    ensures made { (plan : Plan) (t : ℕ) (local : Local) (how : How)
        → IfSome (operation plan t local how) (λ op. OnDecide (touched op) (IsTrue (is_decision_of t (written op 0)))) }
{}

/// Only an operation on the decision takes a thread out of the gathering: onto the go path where it leaves go there,
/// and on the way out where it leaves a decision.
pub fn leaves_the_gathering_by_the_decision()
    ensures go { (plan : Plan) (t : ℕ) (local : Local) (how : How) (found : ℕ)
        → IsTrue (not (is_after_go local.phase) && is_after_go (after plan t local how found).0.phase)
        → IfSome (operation plan t local how) (λ op. (touched op ≡ Decide) × (written op found ≡ 1)) }
    ensures out { (plan : Plan) (t : ℕ) (local : Local) (how : How) (found : ℕ)
        → IsTrue (is_before_decision local.phase && is_leaving (after plan t local how found).0.phase)
        → IfSome (operation plan t local how) (λ op. (touched op ≡ Decide) × (written op found ≢ 0)) }
{}

/// Only a primary comes to the phases in which a revision is written, and only in Writing is one written.
pub fn writes_as_primary()
    ensures primary { (plan : Plan) (t : ℕ) (local : Local) (how : How) (found : ℕ)
        → IsTrue (is_of_primary (after plan t local how found).0.phase)
        → IsTrue (is_of_primary local.phase || is_primary plan t) }
    ensures writing { (plan : Plan) (t : ℕ) (local : Local) (how : How) (found : ℕ) → local.phase ≢ Writing
        → IfSome (operation plan t local how) (λ op. OnRevision (touched op) (written op found ≡ found)) }
{}

/// A step that is no timeout never gives up on others.
pub fn steps_never_give_up()
    ensures { (plan : Plan) (t : ℕ) (local : Local) (found : ℕ) → gives_up (after plan t local Step found).1 ≡ false }
{}

/// A thread stays within its plan: the words that it touches are the plan's, and its loops come to the plan's threads.
pub fn stays_in_the_plan()
    ensures words { (plan : Plan) (t : ℕ) (local : Local) (how : How) →
        Sound plan → t < plan.threads → local.at < plan.threads
        → IfSome (operation plan t local how) (λ op. IsTrue (is_word plan (touched op))) }
    ensures loops { (plan : Plan) (t : ℕ) (local : Local) (how : How) (found : ℕ) → local.at < plan.threads
        → (after plan t local how found).0.at < plan.threads }
{}
