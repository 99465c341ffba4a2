ghost use Rattle.std.specs.Prelude.{◌≡◌, Ok};
ghost use Rattle.outcome.specs.Outcome.{then};
ghost use Rattle.boards.specs.Passing.{after, four_levels};
ghost use Rattle.boards.specs.Script.{load_of, script_next};

use boards::any_board::{levels, pass};
use boards::script::Script;
use records::pins::PinRecord;
use records::ports::Port;
use records::refusals::Refusal;
use std::test::Fail;

fn pin(cycle: u32, port: Port, level: u8) -> PinRecord
    ensures { result ≡ record { cycle = cycle; port = port; level = level } }
{
    PinRecord { cycle, port, level }
}

// The levels after so many ticks of a board that plays the records.
fn levels_after(records: &[PinRecord], ticks: u32) -> Result<[u8; 4], Refusal>
    ensures { result ≡ then (load_of records.now) (λ x. Ok (four_levels (after script_next ticks x.1))) }
{
    let mut board = Script::new();
    board.load(records)?;
    pass(&mut board, ticks);
    Ok(levels(&board))
}

// No records: FFH for ever.
#[test]
fn no_records(rt: HostRuntime) -> Result<(), Fail> {
    assert_eq!(rt; levels_after(&[], 0)?, [0xFF; 4]);
    assert_eq!(rt; levels_after(&[], 5)?, [0xFF; 4]);
    Ok(())
}

// Records of cycle 0 hold before the first tick.
#[test]
fn cycle_0(rt: HostRuntime) -> Result<(), Fail> {
    let records = [
        pin(0, Port::P0, 0x10),
        pin(0, Port::P3, 0x13),
        pin(1, Port::P0, 0x20),
    ];
    assert_eq!(rt; levels_after(&records, 0)?, [0x10, 0xFF, 0xFF, 0x13]);
    assert_eq!(rt; levels_after(&records, 1)?, [0x20, 0xFF, 0xFF, 0x13]);
    Ok(())
}

// A record holds from its cycle on, and not before.
#[test]
fn from_its_cycle_on(rt: HostRuntime) -> Result<(), Fail> {
    let records = [pin(5, Port::P1, 0x00)];
    assert_eq!(rt; levels_after(&records, 4)?, [0xFF; 4]);
    assert_eq!(rt; levels_after(&records, 5)?, [0xFF, 0x00, 0xFF, 0xFF]);
    assert_eq!(rt; levels_after(&records, 1000)?, [0xFF, 0x00, 0xFF, 0xFF]);
    Ok(())
}

// Of equal cycles the later record holds for its port; other ports are apart.
#[test]
fn equal_cycles(rt: HostRuntime) -> Result<(), Fail> {
    let records = [
        pin(2, Port::P1, 0x01),
        pin(2, Port::P2, 0x02),
        pin(2, Port::P1, 0x03),
    ];
    assert_eq!(rt; levels_after(&records, 1)?, [0xFF; 4]);
    assert_eq!(rt; levels_after(&records, 2)?, [0xFF, 0x03, 0x02, 0xFF]);
    Ok(())
}

// Many records fall due at one tick.
#[test]
fn many_at_one_tick(rt: HostRuntime) -> Result<(), Fail> {
    let records = [
        pin(1, Port::P0, 0x01),
        pin(3, Port::P0, 0x02),
        pin(3, Port::P1, 0x03),
        pin(3, Port::P2, 0x04),
        pin(3, Port::P3, 0x05),
        pin(3, Port::P0, 0x06),
        pin(4, Port::P3, 0x07),
    ];
    assert_eq!(rt; levels_after(&records, 2)?, [0x01, 0xFF, 0xFF, 0xFF]);
    assert_eq!(rt; levels_after(&records, 3)?, [0x06, 0x03, 0x04, 0x05]);
    assert_eq!(rt; levels_after(&records, 4)?, [0x06, 0x03, 0x04, 0x07]);
    Ok(())
}

// A cycle below the one before is refused with 5, and the board plays on as before.
#[test]
fn out_of_order(rt: HostRuntime) -> Result<(), Fail> {
    let first = [pin(1, Port::P2, 0x21), pin(3, Port::P2, 0x23)];
    let second = [
        pin(0, Port::P2, 0x00),
        pin(2, Port::P2, 0x00),
        pin(1, Port::P3, 0x00),
    ];
    let mut board = Script::new();
    board.load(&first)?;
    pass(&mut board, 2);
    match board.load(&second) {
        Ok(()) => return Err(Fail::new("accepted")),
        Err(refusal) => assert_eq!(rt; u8::from(refusal), 5),
    }
    assert_eq!(rt; levels(&board), [0xFF, 0xFF, 0x21, 0xFF]);
    pass(&mut board, 1);
    assert_eq!(rt; levels(&board), [0xFF, 0xFF, 0x23, 0xFF]);
    Ok(())
}

// Other records begin before the first tick again.
#[test]
fn loaded_again(rt: HostRuntime) -> Result<(), Fail> {
    let first = [pin(0, Port::P0, 0x01)];
    let second = [pin(1, Port::P1, 0x02)];
    let mut board = Script::new();
    board.load(&first)?;
    pass(&mut board, 7);
    board.load(&second)?;
    assert_eq!(rt; levels(&board), [0xFF; 4]);
    pass(&mut board, 1);
    assert_eq!(rt; levels(&board), [0xFF, 0x02, 0xFF, 0xFF]);
    Ok(())
}
