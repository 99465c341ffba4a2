// A board of fixed levels.
ghost use Rattle.std.specs.Prelude.{◌≡◌, refl};
ghost use Rattle.examples51.specs.Levels.{fixed};

use boards::board::Board;
use boards::port_pins::PortPins;

#[derive(Drop)]
pub struct Levels {
    pins: PortPins,
}

impl Levels {
    // A board of these levels.
    pub(crate) fn new(levels: [u8; 4]) -> Levels {
        Levels {
            pins: PortPins {
                levels,
                ..PortPins::new()
            },
        }
    }
}

impl Board for Levels {
    ghost State = { Unit {0} };

    ghost pins = { λ b. fixed b.pins.levels b.pins.driven };

    ghost next = { λ p. p };

    ghost keeps = { λ b. refl };

    fn level(&self, port: u8) -> u8 {
        self.pins.level(port)
    }

    fn drive(&mut self, port: u8, byte: u8) {
        self.pins.drive(port, byte);
    }

    fn tick(&mut self) {}
}
