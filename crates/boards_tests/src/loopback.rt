use boards::any_board::{levels, pass};
use boards::board::Board;
use boards::loopback::Loopback;

// What is driven on port 1 is the level of port 3 from the next tick on.
#[test]
fn from_port_1_to_port_3(rt: HostRuntime) {
    let mut board = Loopback::new();
    board.drive(1, 0xA5);
    assert_eq!(rt; levels(&board), [0xFF; 4]);
    board.tick();
    assert_eq!(rt; levels(&board), [0xFF, 0xFF, 0xFF, 0xA5]);
    pass(&mut board, 3);
    assert_eq!(rt; levels(&board), [0xFF, 0xFF, 0xFF, 0xA5]);
}

// Of two drives between two ticks only the last shows.
#[test]
fn a_chain_of_drives(rt: HostRuntime) {
    let mut board = Loopback::new();
    board.drive(1, 0x01);
    board.drive(1, 0x02);
    board.tick();
    assert_eq!(rt; board.level(3), 0x02);
    board.drive(1, 0x03);
    assert_eq!(rt; board.level(3), 0x02);
    board.tick();
    assert_eq!(rt; board.level(3), 0x03);
}

// Drives on the other ports, and past them, lead nowhere.
#[test]
fn other_ports(rt: HostRuntime) {
    let mut board = Loopback::new();
    board.drive(0, 0x10);
    board.drive(2, 0x12);
    board.drive(3, 0x13);
    board.drive(4, 0x14);
    board.tick();
    assert_eq!(rt; levels(&board), [0xFF; 4]);
}
