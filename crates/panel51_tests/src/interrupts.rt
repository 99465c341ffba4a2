use crate::runs::run_on;
use boards::loopback::Loopback;
use boards::script::Script;
use buses::{Bus, SplitBus};
use panel51::Panel51;
use records::pins::PinRecord;
use records::ports::Port;
use records::refusals::Refusal;
use std::test::Fail;

// On the loopback board port 1 leads to port 3: MOV P1,#FBH makes the pin of external interrupt 0 low, and its service at 0003H adds 7.
#[test]
fn loopback_interrupts(rt: HostRuntime) -> Result<(), Fail> {
    let code = [
        0x80, 0x0E, 0x00, 0x24, 0x07, 0xA5, 0x00, 0x00, 0x00, 0x00, 0x00, 0x00, 0x00, 0x00, 0x00,
        0x00, 0x75, 0xA8, 0x81, 0x75, 0x90, 0xFB, 0x00, 0x00, 0x00,
    ];
    let mut data = [0; 1];
    let Ok(mut bus) = SplitBus::new(&code, &mut data) else {
        return Err(Fail::new("refused"));
    };
    let mut board = Loopback::new();
    let mut core = Panel51::new();
    assert_eq!(rt; run_on(&mut core, &mut bus, &mut board, 8), (5, 12, 7));
    Ok(())
}

// Two runs of 2 steps on a board that plays the records.
fn two_runs<B: Bus>(
    bus: &mut B,
    records: &[PinRecord],
) -> Result<((u32, u8, u8), (u32, u8, u8)), Refusal> {
    let mut board = Script::new();
    board.load(records)?;
    let mut core = Panel51::new();
    let first = run_on(&mut core, bus, &mut board, 2);
    let second = run_on(&mut core, bus, &mut board, 2);
    Ok((first, second))
}

// A script gives port 1 the level 5AH from cycle 3 on: MOV A,P1 after one cycle reads FFH, and after three cycles 5AH.
#[test]
fn script_levels(rt: HostRuntime) -> Result<(), Fail> {
    let code = [0x00, 0xE5, 0x90, 0x00, 0xE5, 0x90];
    let mut data = [0; 1];
    let Ok(mut bus) = SplitBus::new(&code, &mut data) else {
        return Err(Fail::new("refused"));
    };
    let record = PinRecord {
        cycle: 3,
        port: Port::P1,
        level: 0x5A,
    };
    assert_eq!(rt;
        two_runs(&mut bus, &[record])?,
        ((2, 0, 0xFF), (2, 0, 0x5A))
    );
    Ok(())
}
