//! What only a timeout does. Each law is the contract of a function that does nothing.

ghost use Rattle.std.specs.Prelude.{◌≡◌, ◌≢◌, ℕ, ◌≤◌, IfSome, IsTrue};
ghost use Rattle.rendezvous_steps.specs.declared.steps.Local.{Local};
ghost use Rattle.rendezvous_steps.specs.declared.steps.Phase.TheVariants.{Halted};
ghost use Rattle.rendezvous_steps.specs.declared.steps.How.{How};
ghost use Rattle.rendezvous_steps.specs.declared.steps.How.TheVariants.{Step};
ghost use Rattle.rendezvous_steps.specs.declared.operations.Word.{Word};
ghost use Rattle.rendezvous_steps.specs.declared.operations.Word.TheVariants.{Decide};
ghost use Rattle.rendezvous_steps.specs.declared.items.What.TheVariants.{Idle};
ghost use Rattle.rendezvous_steps.specs.Plan.{Plan};
ghost use Rattle.rendezvous_steps.specs.Words.{words_after};
ghost use Rattle.rendezvous_steps.specs.StepTable.{operation, after, is_last};

/// A step that is no timeout leaves a drop only where it found one, and brings no thread that acts to Halted.
pub fn only_timeouts_drop_and_halt()
    ensures drops { (plan : Plan) (t : ℕ) (local : Local) (words : Word → ℕ)
        → IfSome (operation plan t local Step) (λ op. 2 ≤ words_after words op Decide → 2 ≤ words Decide) }
    ensures halts { (plan : Plan) (t : ℕ) (local : Local) (found : ℕ)
        → IfSome (operation plan t local Step) (λ op. (after plan t local Step found).0.phase ≢ Halted) }
{}

/// A thread idles only where it has come to its last phase.
pub fn idles_at_its_end()
    ensures { (plan : Plan) (t : ℕ) (local : Local) (how : How) (found : ℕ)
        → (after plan t local how found).1 ≡ Idle → IsTrue (is_last (after plan t local how found).0.phase) }
{}
