ghost use Rattle.std.specs.Prelude.{◌≡◌};
ghost use Rattle.boards.specs.Passing.{four_levels, after};

use crate::board::Board;

// The levels of the four ports.
pub fn levels<D: Board>(board: &D) -> [u8; 4]
    ensures { result ≡ four_levels (D.pins board.now) }
{
    [
        board.level(0),
        board.level(1),
        board.level(2),
        board.level(3),
    ]
}

// So many machine cycles pass.
pub fn pass<D: Board>(board: &mut D, cycles: u32)
    ensures value { D.pins board.new ≡ after D.next cycles (D.pins board.old) }
    ensures keeps { (D.pins board.new).driven ≡ (D.pins board.old).driven }
{
    for _i in 0..cycles {
        board.tick();
    }
}
