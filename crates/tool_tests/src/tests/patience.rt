//! The patience of a load.
ghost use Rattle.std.specs.Prelude.{true, []};
ghost use Rattle.rendezvous_steps.specs.ItemText.{item_line as line_of};
ghost use Rattle.play_laws.proofs.Exist.{always_runs as runs_always, ran_grows};

use super::*;
use session_text::SessionAnswer;
use uc_cli::{read_commands, read_machine};
use uc_io::Sink;
use uc_rendezvous::{Beat, Outcome, Plan, Rendezvous, RunAnswer};
use uc_session::run_session;

/// Answers want of memory, and keeps the patience of the plan that it was given last.
#[derive(Drop)]
struct Asked {
    patience: u32,
}

impl Rendezvous for Asked {
    ghost lists = { true };

    ghost limit = { λ _. 256 };

    ghost runs = { λ _. [] };

    fn most(&self) -> u16 {
        256
    }

    fn run<S: Sink>(
        &mut self,
        _alloc: Global,
        plan: &Plan,
        _beats: &[Beat],
        _out: &mut S,
        _outcome: &mut Outcome,
    ) -> Result<(), RunAnswer> {
        self.patience = plan.patience;
        Err(RunAnswer::NoMemory)
    }

    ghost always_runs = { runs_always line_of true };

    ghost never_falls = { ran_grows line_of true };
}

#[test]
fn the_threads_of_a_load_have_the_patience_of_its_script(rt: HostRuntime) -> Result<(), Fail> {
    let alloc = rt.alloc();
    let script = "ucode-script 1\npatience 77\nboot\nload a.bin\nend\n";
    let mut files = files_of(alloc, script)?;
    let topology = Text::new(String::from_str(alloc, "t1")?);
    let script = Text::new(String::from_str(alloc, "s")?);
    let Ok(machine) = read_machine(alloc, &topology, &mut files) else {
        return Err(Fail::from("no machine"));
    };
    let Ok(script) = read_commands(alloc, &script, &machine, &mut files) else {
        return Err(Fail::from("no script"));
    };
    let mut how = Asked { patience: 0 };
    let mut out = MemSink::new(alloc, ROOM)?;
    let answer = run_session(alloc, &machine, &script, &mut how, &mut files, &mut out);
    assert!(rt; matches!(answer, SessionAnswer::NoMemory));
    assert_eq!(rt; how.patience, 77);
    Ok(())
}
