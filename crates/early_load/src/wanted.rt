//! Which threads come up together.

ghost use Rattle.std.specs.Prelude.{◌≡◌, ◌<◌};
ghost use Rattle.hw_machine.specs.Machine.{setting_of, hardware_of};
ghost use Rattle.early_load.specs.Wanted.{wants};

use hw_machine::Machine;

#[derive(Clone, Copy, Debug)]
pub(crate) enum Wanted {
    /// Every thread, as at a boot.
    Every,
    /// Those that were up at the last suspend.
    Remembered,
}

impl Wanted {
    pub fn wants(self, machine: &Machine, t: u16) -> bool
        requires { t < (setting_of machine.now).threads }
        ensures { result ≡ wants self (hardware_of machine.now) t }
    {
        match self {
            Wanted::Every => true,
            Wanted::Remembered => machine.remembered(t),
        }
    }
}
