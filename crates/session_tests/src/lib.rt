//! Tests of the layers of a session from outside, of what no program shows: the calls on a region, what a session tells
//! of its region, what a script is silent on, the writes of lines, and the bytes that a number generates.
#![tactic(auto)]

#[cfg(test)]
mod generated;
#[cfg(test)]
mod regions;
#[cfg(test)]
mod scripts;
#[cfg(test)]
mod sessions;
#[cfg(test)]
mod writes;
