use crate::runs::run_on;
use boards::script::Script;
use buses::SplitBus;
use panel51::Panel51;

// What a run of 5 steps of this code answers, a pair of plain numbers, with 16 data bytes.
fn stopped(code: &[u8]) -> (u32, u8) {
    let mut data = [0; 16];
    let Ok(mut bus) = SplitBus::new(code, &mut data) else {
        return (0, 1);
    };
    let mut board = Script::new();
    let mut core = Panel51::new();
    let (made, stop, _) = run_on(&mut core, &mut bus, &mut board, 5);
    (made, stop)
}

// Each refusal of an emulated program, after the steps before it.
#[test]
fn of_the_program(rt: HostRuntime) {
    assert_eq!(rt; stopped(&[0x00, 0x00]), (2, 11));
    assert_eq!(rt; stopped(&[0x00, 0x75, 0x30]), (1, 11));
    assert_eq!(rt; stopped(&[0xA5]), (0, 12));
    assert_eq!(rt; stopped(&[0x04, 0xE5, 0x87]), (1, 13));
    assert_eq!(rt; stopped(&[0x78, 0x80, 0xE6]), (1, 14));
    assert_eq!(rt; stopped(&[0x90, 0x00, 0x10, 0xE0]), (1, 15));
    assert_eq!(rt;
        stopped(&[0x90, 0x00, 0x0F, 0xE0, 0x00, 0x00, 0x00]),
        (5, 0)
    );
}

// Where two refusals fit, the smaller number: a missing register before missing RAM.
#[test]
fn smaller_first(rt: HostRuntime) {
    assert_eq!(rt; stopped(&[0x78, 0x80, 0xA6, 0x87]), (1, 13));
    assert_eq!(rt; stopped(&[0x75, 0x81, 0x7F, 0xC0, 0x87]), (1, 13));
}
