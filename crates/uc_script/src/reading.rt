ghost use Rattle.std.specs.Prelude.{◌≤◌, length, IfOk, IfErr};
ghost use Rattle.script_text.specs.Texts.{States, FirstFault};
ghost use Rattle.script_text.specs.Reading.{reading};
ghost use Rattle.script_text.specs.Within.{IsWithin};
ghost use Rattle.uc_script.specs.Answers.{IfFault, IsRead};

use crate::answer::ScriptAnswer;
use crate::draft::Draft;
use crate::rest::Rest;
use script_text::{Limits, Script};
use std::alloc::Global;

/// The script that a text states for a machine of so many threads and cores, or the first fault. The text has at most
/// 16,777,216 bytes. Lines without words, and those that begin with `#`, are skipped. The first line is
/// `ucode-script 1`; `pool` and `patience` may follow, and then the commands, as `online 1`. A load's schedule stands
/// between its line, as `load a.bin`, and `end`. Memory goes by the text: `*K` is kept as one beat.
pub fn read_script(
    alloc: Global,
    bytes: &[u8],
    threads: u16,
    cores: u16,
) -> Result<Script, ScriptAnswer>
    requires { length bytes.now ≤ 16777216 }
    ensures states { IfOk result (States (record { threads = threads; cores = cores }) bytes.now) }
    ensures within { IfOk result (IsWithin (record { threads = threads; cores = cores })) }
    ensures fault { IfErr result
        (λ answer. IfFault answer (FirstFault (record { threads = threads; cores = cores }) bytes.now)) }
{
    read(alloc, bytes, Limits { threads, cores })
}

#[tactic(auto, unfolding(script_text::specs::Reading::reading))]
fn read(alloc: Global, bytes: &[u8], limits: Limits) -> Result<Script, ScriptAnswer>
    requires { length bytes.now ≤ 16777216 }
    ensures { IsRead (reading limits bytes.now) result }
{
    let mut lines = Rest::new(bytes);
    let mut draft = Draft::new(alloc);
    while let Some(line) = lines.next_counted() {
        match draft.add_line(limits, &line, &mut lines) {
            Ok(()) => {}
            Err(answer) => return Err(answer),
        }
    }
    draft.finish()
}
