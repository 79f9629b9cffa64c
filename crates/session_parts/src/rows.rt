//! The commands that read no file.

ghost use Rattle.std.specs.Prelude.{◌≡◌, ◌<◌, [], ◌∷◌, length, Ok, Err, MatchResult};
ghost use Rattle.machine_steps.specs.Hardware.{with_refusal};
ghost use Rattle.machine_steps.specs.Calls.{soft_offline, suspend, Answers};
ghost use Rattle.machine_steps.specs.BringUps.{resume};
ghost use Rattle.session_laws.specs.Standing.{Standing};
ghost use Rattle.session_steps.specs.Did.{with_hardware};
ghost use Rattle.session_steps.specs.State.{machine_of, cached_patches};
ghost use Rattle.session_steps.specs.Offers.{group_of_core};
ghost use Rattle.session_steps.specs.Step.{online};

use crate::parts::Parts;
use arrayvec::ArrayVec;
use early_load::{BringUp, bring_up, resume};
use machine_steps::HotAnswer;

impl Parts {
    ghost use Rattle.session_parts.specs.Parts.{setting_of, state_of};

    /// Takes a thread offline.
    pub fn take_offline(&mut self, t: u16) -> Result<(), HotAnswer>
        requires { t < length (setting_of self.old).machine.stated.threads }
        ensures answer { Answers (soft_offline (state_of self.old).hardware t) (state_of self.old).hardware
            (state_of self.new).hardware result }
        ensures rest { state_of self.new ≡ with_hardware (state_of self.old) (state_of self.new).hardware }
        ensures setting { setting_of self.new ≡ setting_of self.old }
    {
        self.machine.soft_offline(t)
    }

    /// Puts the machine to sleep.
    pub fn suspend(&mut self) -> Result<(), HotAnswer>
        ensures answer { Answers (suspend (machine_of (setting_of self.old)) (state_of self.old).hardware)
            (state_of self.old).hardware (state_of self.new).hardware result }
        ensures rest { state_of self.new ≡ with_hardware (state_of self.old) (state_of self.new).hardware }
        ensures setting { setting_of self.new ≡ setting_of self.old }
    {
        self.machine.suspend()
    }

    /// Lets the group of a core refuse writes, or take them.
    pub fn set_refuse(&mut self, core: u16, on: bool)
        requires { core < length (setting_of self.old).machine.stated.cores }
        ensures changed { state_of self.new
            ≡ with_hardware (state_of self.old)
            (with_refusal (state_of self.old).hardware (group_of_core (setting_of self.old) core) on) }
        ensures setting { setting_of self.new ≡ setting_of self.old }
    {
        let group = self.topology.group_of_core(core);
        self.machine.set_refuse(group, on);
    }

    /// Brings a thread up, where the machine lets it.
    pub fn bring_online(&mut self, t: u16) -> Result<BringUp, HotAnswer>
        requires thread { t < length (setting_of self.old).machine.stated.threads }
        requires standing { Standing (setting_of self.old) (state_of self.old) }
        ensures answer { let row = online (setting_of self.old) (state_of self.old) t in
            MatchResult result (λ up. row ≡ Ok (record { ups = up ∷ []; after = (state_of self.new).hardware }))
            (λ answer. (row ≡ Err answer) × ((state_of self.new).hardware ≡ (state_of self.old).hardware)) }
        ensures rest { state_of self.new ≡ with_hardware (state_of self.old) (state_of self.new).hardware }
        ensures setting { setting_of self.new ≡ setting_of self.old }
    {
        self.machine.may_come_up(t)?;
        Ok(bring_up(&mut self.machine, &self.cache, &self.pool, t))
    }

    /// Wakes the machine, and brings up the threads that were up when it fell asleep.
    pub fn wake(&mut self) -> Result<ArrayVec<BringUp, 256>, HotAnswer>
        requires { Standing (setting_of self.old) (state_of self.old) }
        ensures answer { let row =
            resume (machine_of (setting_of self.old)) (cached_patches (state_of self.old))
            (state_of self.old).hardware in
            MatchResult result (λ ups. row ≡ Ok (record { ups = ups.items; after = (state_of self.new).hardware }))
            (λ answer. (row ≡ Err answer) × ((state_of self.new).hardware ≡ (state_of self.old).hardware)) }
        ensures rest { state_of self.new ≡ with_hardware (state_of self.old) (state_of self.new).hardware }
        ensures setting { setting_of self.new ≡ setting_of self.old }
    {
        resume(&mut self.machine, &self.cache, &self.pool)
    }
}
