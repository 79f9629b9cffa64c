//! What is left of a rendezvous.

ghost use Rattle.std.specs.Prelude.{◌≡◌, []};

use arrayvec::ArrayVec;
use rendezvous_steps::End;

/// What is left of a rendezvous. `ends` goes by thread, `revs` by group. Each list has room for 256, so an outcome is
/// lent to whoever fills it, and not handed on from call to call.
#[derive(Drop)]
pub struct Outcome {
    /// 0 while the threads gather, 1 after a go, 2 where thread 0 gave up on the kicked, 3 + t where thread t dropped.
    pub decide: u64,
    pub ends: ArrayVec<End, 256>,
    /// The running revision of each group.
    pub revs: ArrayVec<u32, 256>,
}

impl Outcome {
    /// The outcome of a rendezvous of no thread, to be filled.
    pub fn new() -> Outcome
        ensures decide { result.decide ≡ 0 }
        ensures ends { result.ends.items ≡ [] }
        ensures revs { result.revs.items ≡ [] }
    {
        Outcome {
            decide: 0,
            ends: ArrayVec::new(),
            revs: ArrayVec::new(),
        }
    }
}
