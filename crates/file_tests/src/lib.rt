//! Tests of the crates that read files, of what no program shows: streams that are cut at each place, files and sinks
//! that fail at a call, output that is gathered, and calls that no command makes. What a program shows is a row of
//! `tools/`.
#![tactic(auto)]

#[cfg(test)]
mod catalogues;
#[cfg(test)]
mod containers;
#[cfg(test)]
mod files;
#[cfg(test)]
mod readers;
#[cfg(test)]
mod sinks;
#[cfg(test)]
mod updates;
