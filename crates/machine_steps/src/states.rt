//! The states of a machine and of its threads.

ghost use Rattle.std.specs.Prelude.{◌≡◌};
ghost use Rattle.machine_steps.specs.Hardware.{is_cold, is_up};

/// Whether the machine is powered.
#[derive(Clone, Copy, Debug, PartialEq, Eq)]
pub enum Power {
    /// It was never booted.
    Off,
    On,
    /// It is suspended.
    Asleep,
}

/// What a hardware thread does.
#[derive(Clone, Copy, Debug, Default, PartialEq, Eq)]
pub enum ThreadState {
    /// It was not up since the machine was last powered.
    #[default]
    Cold,
    /// It runs ordinary code.
    Up,
    /// It was up, and was taken offline by software.
    Offline,
}

impl ThreadState {
    pub fn is_cold(self) -> bool
        ensures { result ≡ is_cold self }
    {
        matches!(self, ThreadState::Cold)
    }

    pub fn is_up(self) -> bool
        ensures { result ≡ is_up self }
    {
        matches!(self, ThreadState::Up)
    }
}
