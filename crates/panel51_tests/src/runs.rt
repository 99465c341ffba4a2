use boards::board::Board;
use boards::script::Script;
use buses::{Bus, SplitBus};
use logs::log::Log;
use panel51::Panel51;
use records::port_writes::PortRecord;
use records::traces::TraceRecord;
use std::test::Fail;

// A run of n steps with logs of 8 places: the steps made and the number that stopped it, as run gives them, and the accumulator in the last record.
pub fn run_on<B: Bus, D: Board>(
    core: &mut Panel51,
    bus: &mut B,
    board: &mut D,
    n: u32,
) -> (u32, u8, u8) {
    let mut trace_places = [TraceRecord::BLANK; 8];
    let mut port_places = [PortRecord::BLANK; 8];
    let mut traces = Log::new(&mut trace_places);
    let mut ports = Log::new(&mut port_places);
    let (made, stop) = core.run(bus, board, n, &mut traces, &mut ports);
    let last = traces.records().last();
    (made, stop, last.map_or(0, |record| record.accumulator))
}

// A run of 0 makes no step, a run of 65,536 is refused, a full trace log and a full port log stop a run.
#[test]
fn stops(rt: HostRuntime) -> Result<(), Fail> {
    let code = [0x75, 0x90, 0x11, 0x04, 0x80, 0xFA];
    let mut data = [0; 1];
    let Ok(mut bus) = SplitBus::new(&code, &mut data) else {
        return Err(Fail::new("refused"));
    };
    let mut board = Script::new();
    let mut core = Panel51::new();
    assert_eq!(rt; run_on(&mut core, &mut bus, &mut board, 0), (0, 0, 0));
    assert_eq!(rt; run_on(&mut core, &mut bus, &mut board, 65536), (0, 6, 0));
    assert_eq!(rt; run_on(&mut core, &mut bus, &mut board, 5), (5, 0, 2));
    assert_eq!(rt; run_on(&mut core, &mut bus, &mut board, 9), (8, 8, 4));
    Ok(())
}

// The port log names port, byte and step, and stops the run when it is full.
#[test]
fn port_log(rt: HostRuntime) -> Result<(), Fail> {
    let code = [0x04, 0x75, 0xA0, 0x5A, 0xF5, 0x80, 0x04, 0x04];
    let mut data = [0; 1];
    let Ok(mut bus) = SplitBus::new(&code, &mut data) else {
        return Err(Fail::new("refused"));
    };
    let mut board = Script::new();
    let mut core = Panel51::new();
    let mut trace_places = [TraceRecord::BLANK; 8];
    let mut port_places = [PortRecord::BLANK; 2];
    let mut traces = Log::new(&mut trace_places);
    let mut ports = Log::new(&mut port_places);
    assert_eq!(rt;
        core.run(&mut bus, &mut board, 5, &mut traces, &mut ports),
        (3, 8)
    );
    assert_eq!(rt; traces.len(), 3);
    match (ports.entry(0), ports.entry(1)) {
        (Some(first), Some(second)) => {
            assert_eq!(rt;
                (u8::from(first.port), first.byte, first.step),
                (2, 0x5A, 1)
            );
            assert_eq!(rt;
                (u8::from(second.port), second.byte, second.step),
                (0, 1, 2)
            );
            Ok(())
        }
        _ => Err(Fail::new("two port writes")),
    }
}

// A reset keeps the RAM, clears A and starts at 0000H again.
#[test]
fn reset(rt: HostRuntime) -> Result<(), Fail> {
    let code = [0x25, 0x30, 0x75, 0x30, 0x05, 0x80, 0xFE];
    let mut data = [0; 1];
    let Ok(mut bus) = SplitBus::new(&code, &mut data) else {
        return Err(Fail::new("refused"));
    };
    let mut board = Script::new();
    let mut core = Panel51::new();
    assert_eq!(rt; run_on(&mut core, &mut bus, &mut board, 2), (2, 0, 0));
    core.reset(&mut board);
    assert_eq!(rt; run_on(&mut core, &mut bus, &mut board, 1), (1, 0, 5));
    Ok(())
}
