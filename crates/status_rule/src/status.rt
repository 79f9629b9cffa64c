ghost use Rattle.std.specs.Prelude.{◌≡◌, MatchResult};
ghost use Rattle.status_rule.specs.Status.{code_of};

use uc_io::SinkFailed;

/// How a run of a program ended.
#[derive(Clone, Copy, Debug, PartialEq, Eq)]
pub enum Status {
    /// All was done.
    Done,
    /// The command line breaks the rule of the words: the index of the first word that cannot stand in its place, or
    /// the number of words where one is missing.
    Usage(u32),
    /// An input has no reading, or is longer than allowed.
    BadInput,
    /// A command of a session answered other than done.
    Short,
    /// A file was not read.
    ReadFault,
    /// What was printed did not all get out.
    WriteFault,
    /// The lowest thread that halted in a load.
    Panicked(u16),
    /// Memory ran out.
    NoMemory,
}

impl Status {
    /// The exit status of the process.
    pub fn code(self) -> u8
        ensures { result ≡ code_of self }
    {
        match self {
            Status::Done => 0,
            Status::Usage(_) => 1,
            Status::BadInput => 2,
            Status::Short => 3,
            Status::ReadFault => 4,
            Status::WriteFault => 5,
            Status::Panicked(_) => 6,
            Status::NoMemory => 7,
        }
    }
}

/// The status of a run whose last line was to be written with `status`.
pub fn after_write(status: Status, wrote: Result<(), SinkFailed>) -> Status
    ensures { MatchResult wrote (λ _. result ≡ status) (λ _. result ≡ Status.WriteFault) }
{
    match wrote {
        Ok(()) => status,
        Err(SinkFailed) => Status::WriteFault,
    }
}
