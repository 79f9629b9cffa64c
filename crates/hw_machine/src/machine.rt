//! A machine.

ghost use Rattle.std.specs.Prelude.{◌≡◌, ℕ, ◌<◌, ◌≤◌, length, All, Ok, true, false};
ghost use Rattle.std.specs.List.{list_all};
ghost use Rattle.machine_steps.specs.declared.states.Power.TheVariants.{On};
ghost use Rattle.machine_steps.specs.declared.states.ThreadState.TheVariants.{Up};
ghost use Rattle.machine_steps.specs.Hardware.{setting_of as stated_setting, switched_off, all_cold, is_on, is_cold};
ghost use Rattle.machine_steps.specs.Hardware.{with_thread, with_refusal, with_rev};
ghost use Rattle.machine_steps.specs.Calls.{power_on, soft_offline, may_come_up, suspend, wake, Answers};

use crate::tables::{copied, filled, firmware_revisions, groups_of, up_threads};
use arrayvec::ArrayVec;
use machine_steps::{HotAnswer, Power, ThreadState};
use uc_topology::Topology;

/// A machine whose threads and groups a topology states. Numbers of threads and groups are in range in all calls.
#[derive(Debug, Drop)]
pub struct Machine {
    group: ArrayVec<u16, 256>,
    bios: ArrayVec<u32, 256>,
    power: Power,
    thread: ArrayVec<ThreadState, 256>,
    remembered: ArrayVec<bool, 256>,
    refuses: ArrayVec<bool, 256>,
    rev: ArrayVec<u32, 256>,
    ghost few_threads: { length group.items ≤ 256 },
    ghost few_groups: { length bios.items ≤ 256 },
    ghost in_groups: { All (λ g. g < length bios.items) group.items },
    ghost threads_fit: { length thread.items ≡ length group.items },
    ghost remembered_fit: { length remembered.items ≡ length group.items },
    ghost refuses_fit: { length refuses.items ≡ length bios.items },
    ghost revisions_fit: { length rev.items ≡ length bios.items },
    ghost cold_unless_on: { is_on power ≡ false → list_all is_cold thread.items ≡ true },
}

impl Machine {
    ghost use Rattle.hw_machine.specs.Machine.{setting_of, hardware_of};

    /// The machine that a topology states, off, with each thread cold and each group at the firmware's revision. No
    /// group refuses.
    pub fn new(topology: &Topology) -> Machine
        ensures setting { setting_of result ≡ stated_setting topology.now.stated }
        ensures hardware { hardware_of result ≡ switched_off (setting_of result) }
    {
        let group = groups_of(topology);
        let bios = firmware_revisions(topology);
        let thread = filled(group.len(), ThreadState::Cold);
        let remembered = filled(group.len(), false);
        let refuses = filled(bios.len(), false);
        let rev = copied(&bios);
        Machine {
            group,
            bios,
            power: Power::Off,
            thread,
            remembered,
            refuses,
            rev,
        }
    }

    /// The number of threads.
    pub fn threads(&self) -> u16
        ensures value { result ≡ (setting_of self.now).threads }
        ensures few { result ≤ 256 }
    {
        self.group.len() as u16
    }

    /// The number of groups.
    pub fn groups(&self) -> u16
        ensures value { result ≡ (setting_of self.now).groups }
        ensures few { result ≤ 256 }
    {
        self.bios.len() as u16
    }

    /// The group of a thread.
    pub fn group_of(&self, t: u16) -> u16
        requires { t < (setting_of self.now).threads }
        ensures value { result ≡ (setting_of self.now).group t }
        ensures within { result < (setting_of self.now).groups }
    {
        self.group[usize::from(t)]
    }

    /// Whether it is powered. Its contract says also that all threads are cold where power is not on.
    pub fn power(&self) -> Power
        ensures value { result ≡ (hardware_of self.now).power }
        ensures cold { is_on (hardware_of self.now).power ≡ false → (t : ℕ) →
            is_cold ((hardware_of self.now).thread t) ≡ true }
    {
        self.power
    }

    /// What a thread does.
    pub fn state(&self, t: u16) -> ThreadState
        requires { t < (setting_of self.now).threads }
        ensures { result ≡ (hardware_of self.now).thread t }
    {
        self.thread[usize::from(t)]
    }

    /// The revision of a group.
    pub fn rev(&self, g: u16) -> u32
        requires { g < (setting_of self.now).groups }
        ensures { result ≡ (hardware_of self.now).rev g }
    {
        self.rev[usize::from(g)]
    }

    /// Whether a group refuses writes.
    pub fn refuses(&self, g: u16) -> bool
        requires { g < (setting_of self.now).groups }
        ensures { result ≡ (hardware_of self.now).refuses g }
    {
        self.refuses[usize::from(g)]
    }

    /// Whether a thread was up at the last suspend.
    pub fn remembered(&self, t: u16) -> bool
        requires { t < (setting_of self.now).threads }
        ensures { result ≡ (hardware_of self.now).remembered t }
    {
        self.remembered[usize::from(t)]
    }

    /// Lets a group refuse writes, or take them.
    pub fn set_refuse(&mut self, g: u16, on: bool)
        requires { g < (setting_of self.old).groups }
        ensures changed { hardware_of self.new ≡ with_refusal (hardware_of self.old) g on }
        ensures same_setting { setting_of self.new ≡ setting_of self.old }
    {
        self.refuses[usize::from(g)] = on;
    }

    /// Sets the revision of a group, after a write, to one that is not below the present one.
    pub fn set_rev(&mut self, g: u16, rev: u32)
        requires group { g < (setting_of self.old).groups }
        requires power { is_on (hardware_of self.old).power ≡ true }
        requires no_lower { (hardware_of self.old).rev g ≤ rev }
        ensures changed { hardware_of self.new ≡ with_rev (hardware_of self.old) g rev }
        ensures same_setting { setting_of self.new ≡ setting_of self.old }
    {
        self.rev[usize::from(g)] = rev;
    }

    /// Powers the machine on. It answers `Booted` exactly where it is not off.
    pub fn power_on(&mut self) -> Result<(), HotAnswer>
        ensures answer { Answers (power_on (hardware_of self.old)) (hardware_of self.old)
            (hardware_of self.new) result }
        ensures same_setting { setting_of self.new ≡ setting_of self.old }
    {
        if self.power != Power::Off {
            return Err(HotAnswer::Booted);
        }
        self.power = Power::On;
        Ok(())
    }

    /// Takes a thread offline. It answers the first of these that holds: `PoweredDown` where the machine is not on,
    /// `BootThread` for thread 0, `NotUp` where the thread is not up.
    pub fn soft_offline(&mut self, t: u16) -> Result<(), HotAnswer>
        requires { t < (setting_of self.old).threads }
        ensures answer { Answers (soft_offline (hardware_of self.old) t) (hardware_of self.old)
            (hardware_of self.new) result }
        ensures same_setting { setting_of self.new ≡ setting_of self.old }
    {
        if self.power != Power::On {
            return Err(HotAnswer::PoweredDown);
        }
        if t == 0 {
            return Err(HotAnswer::BootThread);
        }
        if !self.thread[usize::from(t)].is_up() {
            return Err(HotAnswer::NotUp(t));
        }
        self.thread[usize::from(t)] = ThreadState::Offline;
        Ok(())
    }

    /// Whether a thread may be brought up. It answers `PoweredDown` where the machine is not on, and else `IsUp` where
    /// the thread is up.
    pub fn may_come_up(&self, t: u16) -> Result<(), HotAnswer>
        requires { t < (setting_of self.now).threads }
        ensures { Answers (may_come_up (hardware_of self.now) t) (hardware_of self.now) (hardware_of self.now) result }
    {
        if self.power != Power::On {
            return Err(HotAnswer::PoweredDown);
        }
        if self.thread[usize::from(t)].is_up() {
            return Err(HotAnswer::IsUp(t));
        }
        Ok(())
    }

    /// Brings a thread up that may come up, and tells whether it is the first of its group since power-up.
    pub fn come_up(&mut self, t: u16) -> bool
        requires thread { t < (setting_of self.old).threads }
        requires may { may_come_up (hardware_of self.old) t ≡ Ok (hardware_of self.old) }
        ensures first { result ≡ all_cold (setting_of self.old) (hardware_of self.old) ((setting_of self.old).group t) }
        ensures changed { hardware_of self.new ≡ with_thread (hardware_of self.old) t Up }
        ensures same_setting { setting_of self.new ≡ setting_of self.old }
    {
        let first = self.is_cold(self.group_of(t));
        self.thread[usize::from(t)] = ThreadState::Up;
        first
    }

    /// Whether no thread of a group was up since power-up.
    pub fn is_cold(&self, g: u16) -> bool
        ensures { result ≡ all_cold (setting_of self.now) (hardware_of self.now) g }
    {
        for t in 0..self.threads() {
            if self.group_of(t) == g && !self.state(t).is_cold() {
                return false;
            }
        }
        true
    }

    /// Puts the machine to sleep: the threads that are up are remembered, all become cold, and each group falls to the
    /// firmware's revision. It answers `PoweredDown` exactly where the machine is not on.
    pub fn suspend(&mut self) -> Result<(), HotAnswer>
        ensures answer { Answers (suspend (setting_of self.old) (hardware_of self.old)) (hardware_of self.old)
            (hardware_of self.new) result }
        ensures same_setting { setting_of self.new ≡ setting_of self.old }
    {
        if self.power != Power::On {
            return Err(HotAnswer::PoweredDown);
        }
        self.remembered = up_threads(&self.thread);
        self.thread = filled(self.group.len(), ThreadState::Cold);
        self.rev = copied(&self.bios);
        self.power = Power::Asleep;
        Ok(())
    }

    /// Powers a machine on that sleeps. It answers `NotAsleep` exactly where it does not.
    pub fn wake(&mut self) -> Result<(), HotAnswer>
        ensures answer { Answers (wake (hardware_of self.old)) (hardware_of self.old) (hardware_of self.new) result }
        ensures same_setting { setting_of self.new ≡ setting_of self.old }
    {
        if self.power != Power::Asleep {
            return Err(HotAnswer::NotAsleep);
        }
        self.power = Power::On;
        Ok(())
    }
}
