// The external interrupt flags in one machine cycle.
ghost use Rattle.std.specs.Prelude.{◌≡◌};
ghost use Rattle.cycles.specs.Flags.{renewed_of, raised_of, cleared_of, flags_of};

use crate::timers::falls;
use arithmetic::bits::{bit, with_bit};
use core51::state::Timers;

// Where the bits of an external interrupt lie: its activation bit and its flag in TCON, and its pin in port 3.
pub(crate) struct ExternalBits {
    activation: u8,
    flag: u8,
    pin: u8,
}

// IT0 and IE0.
pub(crate) const EXTERNAL0: ExternalBits = ExternalBits {
    activation: 0,
    flag: 1,
    pin: 2,
};

// IT1 and IE1.
pub(crate) const EXTERNAL1: ExternalBits = ExternalBits {
    activation: 2,
    flag: 3,
    pin: 3,
};

impl ExternalBits {
    // The flag after this cycle: a fall of the pin sets it, or without its activation bit it tells that the pin is low.
    fn renewed(&self, timers: &Timers, pins: u8) -> bool
        ensures { result ≡ renewed_of self.now timers.now.pins pins timers.now.tcon }
    {
        if bit(timers.tcon, self.activation) {
            bit(timers.tcon, self.flag) || falls(timers.pins, pins, self.pin)
        } else {
            !bit(pins, self.pin)
        }
    }

    // The flag in TCON at the pins of port 3.
    fn raise(&self, timers: &mut Timers, pins: u8)
        ensures { timers.new ≡ raised_of self.now pins timers.old }
    {
        let flag = self.renewed(timers, pins);
        timers.tcon = with_bit(timers.tcon, self.flag, flag);
    }

    // TCON when the interrupt is called: the flag is cleared if the activation bit is 1.
    pub(crate) fn cleared(&self, tcon: u8) -> u8
        ensures { result ≡ cleared_of self.now tcon }
    {
        if bit(tcon, self.activation) {
            with_bit(tcon, self.flag, false)
        } else {
            tcon
        }
    }
}

// Both external flags, at the pins of port 3.
pub(crate) fn raise_flags(timers: &mut Timers, pins: u8)
    ensures { timers.new ≡ flags_of pins timers.old }
{
    EXTERNAL0.raise(timers, pins);
    EXTERNAL1.raise(timers, pins);
}
