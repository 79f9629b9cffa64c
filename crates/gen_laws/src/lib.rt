//! Laws of generated input: whatever the number, the generated topology states a machine, and the generated script a
//! script for it, and both are short. Each law is the contract of a function that does nothing.
#![tactic(auto)]

mod laws;

pub use laws::{generated_script_is_read, generated_texts_are_short, generated_topology_is_read};
