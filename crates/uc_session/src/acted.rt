//! What a command did in which no rendezvous ran, and its lines.

ghost use Rattle.std.specs.Prelude.{◌≡◌, ◌++◌, [], ◌∷◌, MatchResult};
ghost use Rattle.uc_io.specs.Writing.{Writes};
ghost use Rattle.session_steps.specs.session_text.Lines.{answer_line};
ghost use Rattle.session_steps.specs.session_text.declared.answers.CommandAnswer.TheVariants.{Done, Hot, Load};
ghost use Rattle.session_steps.specs.Did.{ups_text};

use arrayvec::ArrayVec;
use early_load::BringUp;
use session_report::{put_answer, put_ups};
use session_steps::machine_steps::HotAnswer;
use session_steps::session_text::{CommandAnswer, LoadAnswer};
use uc_bytes::Text;
use uc_io::{Sink, SinkFailed};

/// The threads that came up, and what the command answers.
#[derive(Debug, Drop)]
pub struct Acted {
    pub ups: ArrayVec<BringUp, 256>,
    pub answer: CommandAnswer,
}

impl Acted {
    /// An answer, and no thread that came up.
    pub fn only(answer: CommandAnswer) -> Acted
        ensures ups { result.ups.items ≡ [] }
        ensures answer { result.answer ≡ answer }
    {
        Acted {
            ups: ArrayVec::new(),
            answer,
        }
    }

    /// What a load came to, or the files of a boot.
    pub fn load(answer: LoadAnswer) -> Acted
        ensures ups { result.ups.items ≡ [] }
        ensures answer { result.answer ≡ Load answer }
    {
        Acted::only(CommandAnswer::Load(answer))
    }

    /// The command was done, and these threads came up.
    pub fn all_up(ups: ArrayVec<BringUp, 256>) -> Acted
        ensures ups { result.ups.items ≡ ups.items }
        ensures answer { result.answer ≡ Done }
    {
        Acted {
            ups,
            answer: CommandAnswer::Done,
        }
    }

    /// By a row of the machine.
    pub fn by_row(row: Result<(), HotAnswer>) -> Acted
        ensures ups { result.ups.items ≡ [] }
        ensures answer { MatchResult row (λ _. result.answer ≡ Done) (λ answer. result.answer ≡ Hot answer) }
    {
        match row {
            Ok(()) => Acted::only(CommandAnswer::Done),
            Err(answer) => Acted::only(CommandAnswer::Hot(answer)),
        }
    }

    /// By a row in which one thread comes up.
    pub fn by_bring_up(row: Result<BringUp, HotAnswer>) -> Acted
        ensures { MatchResult row (λ up. (result.ups.items ≡ up ∷ []) × (result.answer ≡ Done))
            (λ answer. (result.ups.items ≡ []) × (result.answer ≡ Hot answer)) }
    {
        match row {
            Ok(up) => {
                let mut ups = ArrayVec::new();
                ups.push(up);
                Acted::all_up(ups)
            }
            Err(answer) => Acted::only(CommandAnswer::Hot(answer)),
        }
    }

    /// By a row in which threads come up.
    pub fn by_bring_ups(row: Result<ArrayVec<BringUp, 256>, HotAnswer>) -> Acted
        ensures { MatchResult row (λ ups. (result.ups.items ≡ ups.items) × (result.answer ≡ Done))
            (λ answer. (result.ups.items ≡ []) × (result.answer ≡ Hot answer)) }
    {
        match row {
            Ok(ups) => Acted::all_up(ups),
            Err(answer) => Acted::only(CommandAnswer::Hot(answer)),
        }
    }

    /// Writes the threads that came up, and the answer of a command with these names of files.
    pub fn put<S: Sink>(&self, out: &mut S, names: &[Text]) -> Result<(), SinkFailed>
        ensures { Writes S.stands S.faults out.old out.new
            (ups_text self.now.ups.items ++ answer_line names.now self.now.answer) result }
    {
        put_ups(out, self.ups.as_slice())?;
        put_answer(out, names, self.answer)
    }
}
