//! Tests of what no run of a built program shows: a source or a sink that fails at a call, want of memory, causes that
//! no file gives, and threads that a gate holds. What the programs show stands as data in `tools/`. No crate uses this
//! one.
#![tactic(auto)]

#[cfg(test)]
mod tests;
