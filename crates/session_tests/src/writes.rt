//! How lines are handed to a sink.
use arrayvec::ArrayVec;
use ctl_words::Plan;
use rendezvous_steps::{End, Kind};
use session_report::put_results;
use std::test::Fail;
use uc_gen::TallySink;
use uc_io::{MemSink, Sink};
use uc_topology::{Topology, read_topology};
use update_samples::ONE_PACKAGE;

/// A plan of four threads of one group, without an offer.
fn plan_of_four() -> Plan {
    let mut plan = Plan {
        threads: 4,
        kind: ArrayVec::new(),
        group: ArrayVec::new(),
        primary: ArrayVec::new(),
        offer: ArrayVec::new(),
        refuse: ArrayVec::new(),
        rev0: ArrayVec::new(),
        patience: 0,
    };
    for _ in 0..4 {
        let _ = plan.kind.try_push(Kind::Online);
        let _ = plan.group.try_push(0);
    }
    plan
}

/// Whether the results of that plan are written to a sink that fails at a write, counted from 1, and how much stands
/// there.
fn written(topology: &Topology, out: &mut MemSink, call: u32) -> Option<usize> {
    if topology.groups() != 1 {
        return None;
    }
    out.fail_at(call);
    match put_results(
        out,
        topology,
        &plan_of_four(),
        &[End::Unfinished; 4],
        &[0xb4],
    ) {
        Ok(()) => None,
        Err(_) => Some(out.bytes().len()),
    }
}

#[test]
fn each_line_of_a_load_is_one_write(rt: HostRuntime) -> Result<(), Fail> {
    let Ok(topology) = read_topology(ONE_PACKAGE.as_bytes()) else {
        return Err(Fail::from("no topology"));
    };
    // four lines `cpu T unfinished`, and two `core C rev 0x000000b4`
    for (call, length) in [(1, 0), (2, 17), (3, 34), (4, 51), (5, 68), (6, 90)] {
        let mut out = MemSink::new(rt.alloc(), 256)?;
        assert_eq!(rt; written(&topology, &mut out, call), Some(length));
    }
    Ok(())
}

#[test]
fn a_tally_keeps_the_last_whole_line_of_what_it_takes(rt: HostRuntime) -> Result<(), Fail> {
    let long = [b'a'; 200];
    let mut cut = [b'a'; 128];
    cut[0] = b'f';
    cut[1] = b'o';
    let mut sink = TallySink::new();
    let table: [(&[u8], u64, &[u8]); 7] = [
        (b"", 0, b""),
        (b"one", 0, b""),
        (b" more\n", 1, b"one more"),
        (b"two\nthree\nfo", 3, b"three"),
        (&long, 3, b"three"),
        (b"\n", 4, &cut),
        (b"\n", 5, b""),
    ];
    for (piece, lines, last) in &table {
        assert!(rt; sink.write(piece).is_ok());
        assert_eq!(rt; sink.lines(), *lines);
        assert_eq!(rt; sink.last(), *last);
    }
    Ok(())
}
