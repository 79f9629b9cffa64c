//! Words that threads share.

ghost use Rattle.std.specs.Prelude.{◌≡◌, ℕ, Bool, IsTrue};
ghost use Rattle.rendezvous_steps.specs.declared.operations.Word.{Word as WordName};
ghost use Rattle.rendezvous_steps.specs.Words.{touched, words_after};

use rendezvous_steps::{Op, Word};

/// A set of control words, on which one operation is done at a time.
pub trait Words {
    /// Which words there are.
    ghost has: { Self → WordName → Bool };

    /// What each word holds; what there is not holds 0.
    ghost held: { Self → WordName → ℕ };

    /// Does the operation, and answers what its word held before. It changes that one word and no other.
    fn apply(&mut self, op: Op) -> u64
        requires { IsTrue (has self.old (touched op)) }
        ensures found { result ≡ held self.old (touched op) }
        ensures written { held self.new ≡ words_after (held self.old) op }
        ensures same_words { has self.new ≡ has self.old };
}
