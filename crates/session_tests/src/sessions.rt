//! What a session tells of its region.
use ctl_core::Scheduled;
use patch_pool::PatchId;
use rendezvous_steps::Beat;
use script_text::{Beats, Command, Names};
use session_text::{CommandAnswer, Played};
use std::test::Fail;
use uc_bytes::Text;
use uc_io::{MemFiles, MemSink};
use uc_session::Session;
use uc_topology::read_topology;
use update_samples::{SMALL, TWO_THREADS, push_update};

#[test]
fn the_region_holds_what_a_load_wrote(rt: HostRuntime) -> Result<(), Fail> {
    let alloc = rt.alloc();
    let Ok(topology) = read_topology(TWO_THREADS.as_bytes()) else {
        return Err(Fail::from("no topology"));
    };
    assert!(rt; topology.threads() == 2 && topology.groups() == 1);
    let Ok(mut session) = Session::new(alloc, &topology, 4_096, 10) else {
        return Err(Fail::from("no session"));
    };
    let mut bytes = Vec::new(alloc);
    push_update(&mut bytes, &SMALL)?;
    let mut files = MemFiles::new(alloc);
    files.put("a.bin", bytes.as_slice())?;
    let mut out = MemSink::new(alloc, 4_096)?;
    let mut how = Scheduled::new(alloc);
    let boot = Command::Boot(Names::new(alloc));
    let played = session.run(alloc, &boot, 1, &mut how, &mut files, &mut out);
    assert_eq!(rt; played, Played::Answered(CommandAnswer::Done));
    assert_eq!(rt; session.pool().held(), 0);
    assert_eq!(rt; session.cached(0), None);
    let mut names = Names::new(alloc);
    names.push(Text::new(String::from_str(alloc, "a.bin")?))?;
    let mut beats = Beats::new(alloc);
    beats.push(Beat::Rounds(48))?;
    let load = Command::Load {
        force: false,
        names,
        beats,
    };
    let played = session.run(alloc, &load, 2, &mut how, &mut files, &mut out);
    assert_eq!(rt; played, Played::Answered(CommandAnswer::Done));
    assert_eq!(rt; session.pool().held(), 1);
    assert_eq!(rt; session.cached(0), Some(PatchId(0)));
    assert!(rt; session.pool().holds(PatchId(0)));
    assert_eq!(rt; session.pool().bytes(PatchId(0)), bytes.as_slice());
    Ok(())
}
