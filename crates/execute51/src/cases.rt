// Worked cases, each of a whole instruction, and a law of all effects.
ghost use Rattle.execute51.specs.Cases.{Calls, Ports};
ghost use Rattle.execute51.specs.Laws.{Targets};

// LCALL where the stack ends and where SP wraps; the pins and the latch of a port.
pub fn cases_hold()
    ensures calls { Calls }
    ensures ports { Ports }
{}

// An effect answers a byte for a target exactly if the instruction names one.
pub fn effects_stand()
    ensures { Targets }
{}
