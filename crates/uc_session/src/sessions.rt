//! A session between two commands.

ghost use Rattle.std.specs.Prelude.{◌≡◌, ◌<◌, ◌≤◌, IfOk, length};
ghost use Rattle.uc_topology.specs.Stated.{group_count};
ghost use Rattle.patch_pool.specs.Pool.{patches_of, blocks_in};
ghost use Rattle.early_load.specs.Caches.{first_block, HoldsJustCached};
ghost use Rattle.session_steps.specs.State.{opening_state, machine_of};
ghost use Rattle.session_steps.specs.Calls.{HeldWhere};
ghost use Rattle.session_steps.specs.Played.{IsPlayed, SinkCause};
ghost use Rattle.uc_session.specs.Playing.{BeatsInRange};
ghost use Rattle.session_laws.specs.Standing.{Standing, InRange};
ghost use Rattle.session_parts.specs.Parts.{setting_of as parts_setting, state_of as parts_state};

use crate::playing::play;
use crate::rooms::Room;
use hw_machine::{Power, ThreadState};
use patch_pool::{PatchId, PatchPool};
use session_laws::each_state_stands;
use session_parts::Parts;
use session_steps::script_text::Command;
use session_steps::session_text::Played;
use std::alloc::Global;
use uc_bytes::NoMemory;
use uc_io::{Files, Sink};
use uc_rendezvous::Rendezvous;
use uc_topology::Topology;

/// A session on the machine that a topology states: the machine, the region of patches, and what each group caches.
/// Between two commands its state stands: while power is on thread 0 is up, and the region holds just the patches that
/// groups cache. It is large, so keep it in one place.
#[derive(Drop)]
pub struct Session {
    pub(crate) parts: Parts,
    room: Room,
    ghost standing: { Standing (parts_setting parts) (parts_state parts) },
}

impl Session {
    ghost use Rattle.uc_session.specs.Sessions.{setting_of, state_of};

    /// A session before its first command, with a region of `pool` blocks, 1 to 65,536, in which a thread of a load
    /// waits for `patience` polls.
    pub fn new(
        alloc: Global,
        topology: &Topology,
        pool: u32,
        patience: u32,
    ) -> Result<Session, NoMemory>
        requires some { 0 < pool }
        requires few { pool ≤ 65536 }
        ensures setting { IfOk result
            (λ session. setting_of session ≡ record { machine = topology.now; blocks = pool; patience = patience }) }
        ensures opening { IfOk result (λ session. state_of session ≡ opening_state (setting_of session)) }
    {
        each_state_stands();
        let parts = Parts::new(alloc, topology, pool, patience)?;
        Ok(Session {
            parts,
            room: Room::new(alloc)?,
        })
    }

    /// The revision of a group.
    pub fn rev(&self, g: u16) -> u32
        requires { g < group_count (setting_of self.now).machine.stated.cores }
        ensures { result ≡ (state_of self.now).hardware.rev g }
    {
        self.parts.rev(g)
    }

    /// What a thread does.
    pub fn state(&self, t: u16) -> ThreadState
        requires { t < length (setting_of self.now).machine.stated.threads }
        ensures { result ≡ (state_of self.now).hardware.thread t }
    {
        self.parts.state(t)
    }

    /// Whether the machine is powered.
    pub fn power(&self) -> Power
        ensures { result ≡ (state_of self.now).hardware.power }
    {
        self.parts.power()
    }

    /// The region. Its contract says also that it holds just the patches that groups cache.
    pub fn pool(&self) -> &PatchPool
        ensures patches { patches_of result.now ≡ (state_of self.now).patches }
        ensures blocks { blocks_in result.now ≡ (setting_of self.now).blocks }
        ensures just_cached { HoldsJustCached (group_count (setting_of self.now).machine.stated.cores)
            (state_of self.now).patches (state_of self.now).cached }
    {
        self.parts.pool()
    }

    /// The patch that a group caches.
    pub fn cached(&self, g: u16) -> Option<PatchId>
        requires { g < group_count (setting_of self.now).machine.stated.cores }
        ensures { first_block result ≡ (state_of self.now).cached g }
    {
        self.parts.cached(g)
    }

    /// Runs a command, number `number` of its script, and writes its text. A file is unread exactly where the files'
    /// count of faults rose, and a write fault comes only where the sink's did. After a write fault in the heading or
    /// in what a load shows, and for want of memory, the session is as before; after a later write fault it is in the
    /// state after the command.
    pub fn run<R: Rendezvous, F: Files, S: Sink>(
        &mut self,
        alloc: Global,
        command: &Command,
        number: u32,
        how: &mut R,
        files: &mut F,
        out: &mut S,
    ) -> Played
        requires range { InRange (setting_of self.old) command.now }
        requires beats { BeatsInRange (machine_of (setting_of self.old)).threads command.now }
        requires most { (machine_of (setting_of self.old)).threads ≤ R.limit how.old }
        ensures played { IsPlayed
            (record {
              stands = S.stands;
              faults = S.faults;
              lists = R.lists;
              held = HeldWhere (F.tells files.old) (F.holds files.old);
            })
            (setting_of self.old) number command.now
            (record { state = state_of self.old; files = F.faults files.old; runs = R.runs how.old; sink = out.old })
            (record { state = state_of self.new; files = F.faults files.new; runs = R.runs how.new; sink = out.new })
            result }
        ensures setting { setting_of self.new ≡ setting_of self.old }
        ensures same { F.holds files.new ≡ F.holds files.old }
        ensures still { F.tells files.old → F.tells files.new }
        ensures later { F.faults files.old ≤ F.faults files.new }
        ensures sink_later { S.faults out.old ≤ S.faults out.new }
        ensures sink_cause { SinkCause result (S.faults out.old) (S.faults out.new) }
        ensures most_stays { R.limit how.new ≡ R.limit how.old }
    {
        // Read for its contract: every thread is on a core of the machine, and every core in a group.
        let _topology = self.parts.topology();
        play(
            alloc,
            &mut self.parts,
            &mut self.room,
            command,
            number,
            how,
            files,
            out,
        )
    }
}
