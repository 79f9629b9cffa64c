//! Who takes part in a load, and whom it wants to be up.

ghost use Rattle.std.specs.Prelude.{◌≡◌, ◌<◌, length};
ghost use Rattle.uc_topology.specs.Stated.{group_count};
ghost use Rattle.session_steps.specs.State.{takes_part, core_takes_part, is_needed, is_missing, first_missing};
ghost use Rattle.session_parts.specs.Presence.{is_primary, is_lead};

use crate::parts::Parts;

impl Parts {
    ghost use Rattle.session_parts.specs.Parts.{setting_of, state_of};

    /// Whether a thread of a group was up since power-up.
    pub fn takes_part(&self, g: u16) -> bool
        requires { g < group_count (setting_of self.now).machine.stated.cores }
        ensures { result ≡ takes_part (setting_of self.now) (state_of self.now) g }
    {
        !self.machine.is_cold(g)
    }

    /// Whether a thread of a core was up since power-up.
    pub fn core_takes_part(&self, core: u16) -> bool
        requires { core < length (setting_of self.now).machine.stated.cores }
        ensures { result ≡ core_takes_part (setting_of self.now) (state_of self.now) core }
    {
        'threads: for t in 0..self.topology.threads() {
            if self.topology.core_of(t) == core && !self.machine.state(t).is_cold() {
                return true;
            }
        }
        false
    }

    /// Whether a thread is the primary of a group that takes part.
    fn is_primary(&self, t: u16) -> bool
        requires { t < length (setting_of self.now).machine.stated.threads }
        ensures { result ≡ is_primary (setting_of self.now) (state_of self.now) t }
    {
        let group = self.machine.group_of(t);
        t == self.topology.primary_of(group) && self.takes_part(group)
    }

    /// Whether a thread is the lowest of a core that takes part.
    fn is_lead(&self, t: u16) -> bool
        requires { t < length (setting_of self.now).machine.stated.threads }
        ensures { result ≡ is_lead (setting_of self.now) (state_of self.now) t }
    {
        // Read for its contract: every thread is on a core of the machine, and every core in a group.
        let _threads = self.topology.threads();
        let core = self.topology.core_of(t);
        t == self.topology.lead_of(core) && self.core_takes_part(core)
    }

    /// Whether a load needs a thread.
    fn is_needed(&self, t: u16) -> bool
        requires { t < length (setting_of self.now).machine.stated.threads }
        ensures { result ≡ is_needed (setting_of self.now) (state_of self.now) t }
    {
        self.is_primary(t) || self.is_lead(t)
    }

    /// Whether a load needs a thread that is not up.
    fn is_missing(&self, t: u16) -> bool
        requires { t < length (setting_of self.now).machine.stated.threads }
        ensures { result ≡ is_missing (setting_of self.now) (state_of self.now) t }
    {
        if self.machine.state(t).is_up() {
            return false;
        }
        self.is_needed(t)
    }

    /// The lowest thread that a load needs and that is not up.
    pub fn first_missing(&self) -> Option<u16>
        ensures { result ≡ first_missing (setting_of self.now) (state_of self.now) }
    {
        'threads: for t in 0..self.topology.threads() {
            if self.is_missing(t) {
                return Some(t);
            }
        }
        None
    }
}
