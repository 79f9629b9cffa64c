ghost use Rattle.std.specs.Prelude.{◌≡◌};
ghost use Rattle.uc_script.specs.declared.answer.LineAnswer.TheVariants.{Cause, NoMemory as LineNoMemory};

use script_text::{ScriptCause, ScriptFault};
use std::alloc::{AllocError, AllocFailed};
use uc_bytes::NoMemory;

/// Why there is no script.
#[derive(Clone, Copy, Debug, PartialEq, Eq)]
pub enum ScriptAnswer {
    Fault(ScriptFault),
    NoMemory,
}

/// Why a line adds nothing.
#[derive(Clone, Copy, Debug, PartialEq, Eq)]
pub enum LineAnswer {
    Cause(ScriptCause),
    NoMemory,
}

impl LineAnswer {
    ghost use Rattle.uc_script.specs.Answers.{answer_at};

    /// The same of a line with this number.
    pub fn at(self, line: u32) -> ScriptAnswer
        ensures { result ≡ answer_at line self }
    {
        match self {
            LineAnswer::Cause(cause) => ScriptAnswer::Fault(ScriptFault { line, cause }),
            LineAnswer::NoMemory => ScriptAnswer::NoMemory,
        }
    }
}

impl From<ScriptCause> for LineAnswer {
    ghost from_gives = { λ cause answer. answer ≡ Cause cause };

    fn from(cause: ScriptCause) -> LineAnswer {
        LineAnswer::Cause(cause)
    }
}

impl From<NoMemory> for LineAnswer {
    ghost from_gives = { λ _ answer. answer ≡ LineNoMemory };

    fn from(_error: NoMemory) -> LineAnswer {
        LineAnswer::NoMemory
    }
}

impl From<AllocError> for LineAnswer {
    ghost from_gives = { λ _ answer. answer ≡ LineNoMemory };

    fn from(_error: AllocError) -> LineAnswer {
        LineAnswer::NoMemory
    }
}

impl<T: Drop> From<AllocFailed<T>> for LineAnswer {
    ghost from_gives = { λ _ answer. answer ≡ LineNoMemory };

    fn from(_error: AllocFailed<T>) -> LineAnswer {
        LineAnswer::NoMemory
    }
}
