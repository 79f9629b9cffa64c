//! The words that threads share, and the operations on them.

ghost use Rattle.std.specs.Prelude.{◌≡◌};
ghost use Rattle.rendezvous_steps.specs.Words.{touched, written};

/// A control word. A thread's words are Mode, Ctrl and Nmi with its number, a group's are Rev and Res.
#[derive(Clone, Copy, Debug, PartialEq, Eq)]
pub enum Word {
    /// How many Online threads have not arrived. It counts down.
    Arrive,
    /// How many Offline threads have counted themselves in. It counts up.
    OffIn,
    /// 0 while the threads gather, 1 for go, 2 where thread 0 gave up on the kicked, 3 + t where thread t dropped.
    Decide,
    /// 0 outside the handler, 1 inside, 2 writing, 8 and the result where the thread has left.
    Mode(u16),
    /// What a waiting thread is told: 0 wait, 1 apply, 2 done. 3 says that it halted.
    Ctrl(u16),
    /// An Offline thread's kick: 0 not yet, 1 kicked, 2 taken, 3 withdrawn.
    Nmi(u16),
    /// The running revision of a group.
    Rev(u16),
    /// 0, or the number of the result that a group's primary reported.
    Res(u16),
}

/// One atomic operation on one word. Each answers what the word held before.
#[derive(Clone, Copy, Debug, PartialEq, Eq)]
pub enum Op {
    Load(Word),
    Store(Word, u64),
    /// The sum wraps at 2^64.
    Add(Word, u64),
    /// The difference wraps at 2^64.
    Sub(Word, u64),
    /// Stores the last number where the word holds the one before it.
    Cas(Word, u64, u64),
}

impl Op {
    /// The word that it touches.
    pub fn word(self) -> Word
        ensures { result ≡ touched self }
    {
        match self {
            Op::Load(word)
            | Op::Store(word, _)
            | Op::Add(word, _)
            | Op::Sub(word, _)
            | Op::Cas(word, _, _) => word,
        }
    }

    /// What its word holds afterwards, where it held `found` before.
    pub fn written(self, found: u64) -> u64
        ensures { result ≡ written self found }
    {
        match self {
            Op::Load(_) => found,
            Op::Store(_, new) => new,
            Op::Add(_, by) => found.wrapping_add(by),
            Op::Sub(_, by) => found.wrapping_sub(by),
            Op::Cas(_, expected, new) => { if found == expected { new } else { found } }
        }
    }
}
