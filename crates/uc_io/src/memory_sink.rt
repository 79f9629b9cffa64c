//! A sink in memory that may fail.
ghost use Rattle.std.specs.Prelude.{◌≡◌, ◌≤◌, ◌+◌, ◌++◌, ◌↔◌, [], false, length, vec_len, vec_capacity, Some, None, IfOk, IsOk, OnErr};
ghost use Rattle.uc_io.specs.Faults.{Rose, one_more};
ghost use Rattle.uc_io.specs.Writing.{Writes};

use crate::sinks::{Sink, SinkFailed};
use std::alloc::Global;
use uc_bytes::NoMemory;

/// A sink in memory. It stands for the bytes that it took and for no others. A write that does not fit its room takes
/// what fits, and fails. One more write that is to fail can be named by its number.
#[derive(Drop)]
pub struct MemSink {
    taken: Vec<u8>,
    room: usize,
    failing: Option<u64>,
    writes: u64,
    faults: u64,
    ghost within: { vec_len taken ≤ room },
    ghost reserved: { room ≤ vec_capacity taken },
}

impl MemSink {
    ghost use Rattle.uc_io.specs.Sink.{taken_by, room_of, failing_of, writes_of, faults_of, SameButFailing, is_to_fail};

    /// A sink with room for that many bytes, all of which is taken here.
    pub fn new(alloc: Global, room: usize) -> Result<MemSink, NoMemory>
        ensures taken { IfOk result (λ sink. taken_by sink ≡ []) }
        ensures room { IfOk result (λ sink. room_of sink ≡ room) }
        ensures failing { IfOk result (λ sink. failing_of sink ≡ None) }
        ensures writes { IfOk result (λ sink. writes_of sink ≡ 0) }
        ensures faults { IfOk result (λ sink. faults_of sink ≡ 0) }
    {
        Ok(MemSink {
            taken: Vec::with_capacity(alloc, room)?,
            room,
            failing: None,
            writes: 0,
            faults: 0,
        })
    }

    /// The bytes that were taken.
    pub fn bytes(&self) -> &[u8]
        ensures { result.now ≡ taken_by self.now }
    {
        self.taken.as_slice()
    }

    /// Lets the write with that number fail, counted from 1, and no longer the one that was named before.
    pub fn fail_at(&mut self, call: u32)
        ensures failing { failing_of self.new ≡ Some call }
        ensures same { SameButFailing self.old self.new }
    {
        self.failing = Some(u64::from(call));
    }

    /// Counts a write, and says whether it is to fail.
    fn begins_to_fail(&mut self) -> bool
        ensures fails { result ≡ is_to_fail self.old }
        ensures same { self.new ≡ record self.old { writes = one_more self.old.writes } }
    {
        self.writes = self.writes.saturating_add(1);
        match self.failing {
            Some(write) => write == self.writes,
            None => false,
        }
    }

    fn count_fault(&mut self)
        ensures same { self.new ≡ record self.old { faults = one_more self.old.faults } }
        ensures rose { Rose self.old.faults self.new.faults }
        ensures later { self.old.faults ≤ self.new.faults }
    {
        self.faults = self.faults.saturating_add(1);
    }
}

impl Sink for MemSink {
    ghost use Rattle.uc_io.specs.Sink.{stands_for, taken_by, room_of, failing_of, writes_of, faults_of, is_to_fail, part_of};

    ghost stands = { stands_for };

    ghost faults = { faults_of };

    fn write(&mut self, piece: &[u8]) -> Result<(), SinkFailed>
        ensures writes { Writes stands_for faults_of self.old self.new piece.now result }
        ensures taken { taken_by self.new ≡ taken_by self.old ++ part_of self.old piece.now }
        ensures ok { IsOk result ↔ ((is_to_fail self.old ≡ false)
            × (length (taken_by self.old) + length piece.now ≤ room_of self.old)) }
        ensures counted { OnErr result (faults_of self.new ≡ one_more (faults_of self.old)) }
        ensures number { writes_of self.new ≡ one_more (writes_of self.old) }
        ensures room { room_of self.new ≡ room_of self.old }
        ensures failing { failing_of self.new ≡ failing_of self.old }
    {
        if self.begins_to_fail() {
            self.count_fault();
            return Err(SinkFailed);
        }
        let fitting = piece.len().min(self.room - self.taken.len());
        self.taken.extend_from_slice(&piece[..fitting]).unwrap();
        if fitting < piece.len() {
            self.count_fault();
            return Err(SinkFailed);
        }
        Ok(())
    }
}
