ghost use Rattle.std.specs.Prelude.{◌≡◌};
ghost use Rattle.boards.specs.Board.{Pins, level_of, drive_of};

// A board by its meaning: levels, driven bytes and a state of its own, and what a tick brings.
pub trait Board {
    ghost State: { Type 0 };

    ghost pins: { Self → Pins State };

    ghost next: { Pins State → Pins State };

    ghost keeps: { (b : Pins State) → (next b).driven ≡ b.driven };

    // The level byte of a port. Ports are plain numbers here: a rule of the project, every number is answered, and a type would ask more
    // of callers.
    fn level(&self, port: u8) -> u8
        ensures { result ≡ level_of (pins self.now) port };

    // Drives a byte to a port.
    fn drive(&mut self, port: u8, byte: u8)
        ensures { pins self.new ≡ drive_of (pins self.old) port byte };

    // One machine cycle passes.
    fn tick(&mut self)
        ensures { pins self.new ≡ next (pins self.old) };
}
