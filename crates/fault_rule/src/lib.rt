//! Checks that are made in an order, each named by the cause that its fault has, defined.
//!
//! A format or a grammar lists its checks and says what makes each of them fail. `specs/Checks` says which cause is then
//! the first that fails, and when none does. Whatever the checks are, either some cause is the first or all of them pass,
//! never both, and no two causes are the first: the lemmas of `proofs/Search` find it, one check after another.
#![tactic(auto)]
