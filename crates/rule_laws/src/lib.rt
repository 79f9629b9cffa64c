//! Laws of the rule between steps: that it holds when a load begins, that words and threads' states that meet it stand
//! for one state of the model, and that this state is safe. Each law is the contract of a function that does nothing.
//!
//! The lemmas in `proofs/` are those that every step of the table needs: what one thread's step changes of what others
//! see (`Tables`), that others know what they knew (`Later`), that the state shown is the one that the views make
//! (`Assemble`), and a step from its change (`Step`). The kinds of steps themselves stand in the crate above.
#![tactic(auto)]

mod laws;

pub use laws::{opening_keeps_the_rule, the_rule_is_safe, the_rule_shows_one_state};
