ghost use Rattle.std.specs.Prelude.{◌≡◌, [], ◌∷◌, ◌++◌, OnOk, OnErr};

use rendezvous_steps::Beat;
use std::alloc::Global;
use std::marker::Model;
use uc_bytes::{NoMemory, Text};

/// The names of files, in order. A contract sees the bytes of each.
#[derive(Debug, Drop)]
pub struct Names {
    names: Vec<Text>,
}

impl Model for Names {
    ghost use Rattle.std.specs.Prelude.{ℕ, List};

    ghost Value = { List (List ℕ) };

    ghost view = { λ n. n.names.items };
}

impl Names {
    pub fn new(alloc: Global) -> Self
        ensures { result ≡ [] }
    {
        Names {
            names: Vec::new(alloc),
        }
    }

    /// Puts a name behind those that stand. Where memory runs out they stay as they are.
    pub fn push(&mut self, name: Text) -> Result<(), NoMemory>
        ensures ok { OnOk result (self.new ≡ self.old ++ name ∷ []) }
        ensures err { OnErr result (self.new ≡ self.old) }
    {
        self.names.push(name)?;
        Ok(())
    }

    pub fn as_slice(&self) -> &[Text]
        ensures { result.now ≡ self.now }
    {
        &self.names
    }
}

/// The beats of a schedule, in order. A contract sees their list.
#[derive(Debug, Drop)]
pub struct Beats {
    beats: Vec<Beat>,
}

impl Model for Beats {
    ghost use Rattle.std.specs.Prelude.{List};
    ghost use Rattle.rendezvous_steps.specs.declared.ends.Beat.{Beat};

    ghost Value = { List Beat };

    ghost view = { λ b. b.beats.items };
}

impl Beats {
    pub fn new(alloc: Global) -> Self
        ensures { result ≡ [] }
    {
        Beats {
            beats: Vec::new(alloc),
        }
    }

    /// Puts a beat behind those that stand. Where memory runs out they stay as they are.
    pub fn push(&mut self, beat: Beat) -> Result<(), NoMemory>
        ensures ok { OnOk result (self.new ≡ self.old ++ beat ∷ []) }
        ensures err { OnErr result (self.new ≡ self.old) }
    {
        self.beats.push(beat)?;
        Ok(())
    }

    pub fn as_slice(&self) -> &[Beat]
        ensures { result.now ≡ self.now }
    {
        &self.beats
    }
}

/// A command of a session.
#[derive(Debug, Drop)]
pub enum Command {
    /// Loads from the files of these names before the first thread but the boot thread comes up.
    Boot(Names),
    /// Brings up a thread.
    Online(u16),
    /// Takes down a thread.
    Offline(u16),
    /// Powers the machine down.
    Suspend,
    /// Powers it up again.
    Resume,
    /// Lets the writes of a core's group be refused.
    Refuse(u16),
    /// Lets them be taken again.
    Accept(u16),
    /// Loads from the files of these names while threads run, as the schedule of beats says. With force an update needs
    /// a minimum revision that the running one reaches.
    Load {
        force: bool,
        names: Names,
        beats: Beats,
    },
}

/// A load that has no `end` yet: the line that it begins on, and what is stated of it.
#[derive(Debug, Drop)]
pub struct OpenLoad {
    pub line: u32,
    pub force: bool,
    pub names: Names,
    pub beats: Beats,
}
