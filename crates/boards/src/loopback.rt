ghost use Rattle.std.specs.Prelude.{◌≡◌, refl};
ghost use Rattle.boards.specs.Loopback.{looped, loopback_start, loopback_next};

use crate::board::Board;
use crate::port_pins::PortPins;

// Each tick leads the byte driven on port 1 to the level of port 3.
#[derive(Drop)]
pub struct Loopback {
    pins: PortPins,
}

impl Loopback {
    pub fn new() -> Loopback
        ensures { looped result.pins.levels result.pins.driven ≡ loopback_start }
    {
        Loopback {
            pins: PortPins::new(),
        }
    }
}

impl Board for Loopback {
    ghost State = { Unit {0} };

    ghost pins = { λ b. looped b.pins.levels b.pins.driven };

    ghost next = { loopback_next };

    ghost keeps = { λ b. refl };

    fn level(&self, port: u8) -> u8 {
        self.pins.level(port)
    }

    fn drive(&mut self, port: u8, byte: u8) {
        self.pins.drive(port, byte);
    }

    fn tick(&mut self) {
        self.pins.levels[3] = self.pins.driven[1];
    }
}
