ghost use Rattle.std.specs.Prelude.{◌≡◌};

use crate::command::Command;
use std::marker::Model;

/// What a script states: how many blocks of 1,024 bytes the region for patches has, how many polls a thread waits, and
/// the commands.
#[derive(Debug, Drop)]
pub struct Script {
    pool: u32,
    patience: u32,
    commands: Vec<Command>,
}

impl Model for Script {
    ghost use Rattle.script_text.specs.Stated.{Stated};

    ghost Value = { Stated };

    ghost view = { λ s. record { pool = s.pool; patience = s.patience; commands = s.commands.items } };
}

impl Script {
    pub fn new(pool: u32, patience: u32, commands: Vec<Command>) -> Self
        ensures { result ≡ record { pool = pool; patience = patience; commands = commands.items } }
    {
        Script {
            pool,
            patience,
            commands,
        }
    }

    /// The blocks of the region for patches, 1 to 65,536: those that the script states, or 4,096.
    pub fn pool(&self) -> u32
        ensures { result ≡ self.now.pool }
    {
        self.pool
    }

    /// The polls that a thread waits before it may give up: those that the script states, or 10,000,000.
    pub fn patience(&self) -> u32
        ensures { result ≡ self.now.patience }
    {
        self.patience
    }

    /// The commands, at most 4,096, in the order of their lines.
    pub fn commands(&self) -> &[Command]
        ensures { result.now ≡ self.now.commands }
    {
        &self.commands
    }
}
