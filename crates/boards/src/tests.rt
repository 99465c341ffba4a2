use crate::board::Board;
use crate::port_pins::PortPins;
use crate::script::Script;
use records::pins::PinRecord;
use records::ports::Port;

// A record of the last cycle, one tick before it comes into force.
#[test]
fn the_last_cycle(rt: HostRuntime) {
    let records = [PinRecord {
        cycle: 0xFFFF_FFFF,
        port: Port::P2,
        level: 0x55,
    }];
    let mut board = Script {
        records: &records,
        ticks: 0xFFFF_FFFE,
        rest: &records,
        pins: PortPins::new(),
    };
    assert_eq!(rt; board.level(2), 0xFF);
    board.tick();
    assert_eq!(rt; board.ticks, 0xFFFF_FFFF);
    assert_eq!(rt; board.level(2), 0x55);
    board.tick();
    assert_eq!(rt; board.ticks, 0xFFFF_FFFF);
    assert_eq!(rt; board.level(2), 0x55);
}
