//! Tests of the rendezvous, from the step table to threads that run. Each needs public calls alone, so the crates below
//! are proved once. What `ucode play` shows of schedules stands as texts in `examples/` and as rows in `tools/`.
#![tactic(auto)]

#[cfg(test)]
mod bays;
#[cfg(test)]
mod cores;
#[cfg(test)]
mod held;
#[cfg(test)]
mod live;
#[cfg(test)]
mod plans;
#[cfg(test)]
mod step_table;
