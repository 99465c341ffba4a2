ghost use Rattle.std.specs.Prelude.{◌≡◌};
ghost use Rattle.boards.specs.Board.{level_of, drive_of};

// The level byte and the driven byte of each port. Two arrays and no array of pairs, which would be no plainer: levels are set and
// answered as a whole, and so are the lists of the meaning.
#[derive(Clone, Copy, PartialEq, Eq, Debug)]
pub struct PortPins {
    pub levels: [u8; 4],
    pub driven: [u8; 4],
}

impl PortPins {
    ghost use Rattle.boards.specs.PortPins.{pins_of, pins_high};

    // All levels and all driven bytes FFH.
    pub fn new() -> PortPins
        ensures { pins_of result ≡ pins_high }
    {
        PortPins {
            levels: [0xFF; 4],
            driven: [0xFF; 4],
        }
    }

    // The level byte of a port, FFH for a number above 3.
    pub fn level(&self, port: u8) -> u8
        ensures { result ≡ level_of (pins_of self.now) port }
    {
        self.levels.get(port as usize).copied().unwrap_or(0xFF)
    }

    // Drives a byte to a port, and to none for a number above 3.
    pub fn drive(&mut self, port: u8, byte: u8)
        ensures { pins_of self.new ≡ drive_of (pins_of self.old) port byte }
    {
        // By index: tried with `get_mut`, whose contract does not say what the slice ends as, and the proof did not close.
        if port < 4 {
            self.driven[port as usize] = byte;
        }
    }
}
