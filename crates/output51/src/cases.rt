// Worked cases of the definitions that the contracts cite.
ghost use Rattle.output51.specs.Cases.{Worked};

use boards::board::Board;

// The output of run51 on an example, sums and calls at their edges, timers that overflow, a port's pins, the higher of two levels, and a
// run of 0 on any board.
pub fn cases_hold<D: Board>(_board: &D)
    ensures { Worked D.next }
{}
