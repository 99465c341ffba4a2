ghost use Rattle.std.specs.Prelude.{◌≡◌, true, ◌++◌};
ghost use Rattle.boards.specs.Script.{in_force, levels_at, cycles_in_order};

use crate::port_pins::PortPins;
use records::pins::PinRecord;

// Plays pin records: each gives its port a level from its cycle on.
#[derive(Drop)]
pub struct Script<'a> {
    // all of them, which say what the board means
    pub(crate) records: &'a [PinRecord],
    pub(crate) ticks: u32,
    // those that have not come into force
    pub(crate) rest: &'a [PinRecord],
    pub(crate) pins: PortPins,
    ghost ordered: { cycles_in_order records.now ≡ true },
    ghost passed: { in_force ticks records.now ++ rest.now ≡ records.now },
    ghost current: { pins.levels ≡ levels_at records.now ticks },
}
