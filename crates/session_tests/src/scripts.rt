//! What a script states.
use rendezvous_steps::Beat;
use script_text::Command;
use std::test::Fail;
use uc_script::read_script;

#[test]
fn a_script_may_be_silent_on_blocks_and_polls(rt: HostRuntime) -> Result<(), Fail> {
    let Ok(script) = read_script(rt.alloc(), b"ucode-script 1", 2, 1) else {
        return Err(Fail::from("no script"));
    };
    assert_eq!(rt; script.pool(), 4_096);
    assert_eq!(rt; script.patience(), 10_000_000);
    assert!(rt; script.commands().is_empty());
    Ok(())
}

#[test]
fn a_schedule_may_be_written_in_short_words_or_long_ones(rt: HostRuntime) -> Result<(), Fail> {
    let text =
        b"ucode-script 1\npool 0x3\nload a.bin\ns0 t1\tn0\n# s9\n\nr0x1 *2 *109 *65535 s001\nend\r";
    let Ok(script) = read_script(rt.alloc(), text, 2, 1) else {
        return Err(Fail::from("no script"));
    };
    let Some(Command::Load { names, beats, .. }) = script.commands().get(0) else {
        return Err(Fail::from("no load"));
    };
    let schedule = [
        Beat::Step(0),
        Beat::Timeout(1),
        Beat::Nmi(0),
        Beat::Run(1),
        Beat::Rounds(2),
        Beat::Rounds(109),
        Beat::Rounds(65_535),
        Beat::Step(1),
    ];
    assert_eq!(rt; beats.as_slice(), schedule.as_slice());
    assert_eq!(rt; names.as_slice().len(), 1);
    assert_eq!(rt; script.pool(), 3);
    Ok(())
}
