use boards::any_board::{levels, pass};
use boards::board::Board;
use boards::loopback::Loopback;
use boards::script::Script;
use std::test::Fail;

// Whether a board shows what is expected.
fn same<T: PartialEq + Drop>(shown: T, expected: T) -> Result<(), Fail> {
    if shown != expected {
        return Err(Fail::new("something else than expected"));
    }
    Ok(())
}

// A new board shows FFH everywhere, and port numbers above 3 are no ports.
fn new_board<D: Board>(board: &mut D) -> Result<(), Fail> {
    same(levels(board), [0xFF; 4])?;
    board.drive(4, 0x12);
    board.drive(255, 0x34);
    pass(board, 2);
    same(levels(board), [0xFF; 4])?;
    same(board.level(4), 0xFF)?;
    same(board.level(255), 0xFF)
}

// A drive alone changes no level.
fn drives_only<D: Board>(board: &mut D) -> Result<(), Fail> {
    let before = levels(board);
    board.drive(0, 0x01);
    board.drive(1, 0x02);
    board.drive(2, 0x03);
    board.drive(3, 0x04);
    same(levels(board), before)
}

#[test]
fn new_boards() -> Result<(), Fail> {
    new_board(&mut Loopback::new())?;
    new_board(&mut Script::new())
}

#[test]
fn drives() -> Result<(), Fail> {
    drives_only(&mut Loopback::new())?;
    drives_only(&mut Script::new())
}
