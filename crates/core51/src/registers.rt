// Parts of the registers that instructions share: the carry, the flags, DPTR, R0 and R1 as pointers, the parity.
ghost use Rattle.std.specs.Prelude.{◌≡◌};
ghost use Rattle.core51.specs.Registers.{carry_of, carried_of, flagged_of, dptr_of, pointed_of, pointer_of, settled_of};

use crate::state::Registers;
use arithmetic::addresses::word;
use arithmetic::bits::{bit, parity, with_bit, with_flags};

impl Registers {
    // The carry, bit 7 of PSW.
    pub fn carry(&self) -> bool
        ensures { result ≡ carry_of self.now }
    {
        bit(self.psw, 7)
    }

    pub fn set_carry(&mut self, value: bool)
        ensures { self.new ≡ carried_of self.old value }
    {
        self.psw = with_bit(self.psw, 7, value);
    }

    // Puts the affected flags into PSW, whose other bits stay.
    pub fn set_flags(&mut self, affected: u8, flags: u8)
        ensures { self.new ≡ flagged_of self.old affected flags }
    {
        self.psw = with_flags(self.psw, affected, flags);
    }

    pub fn dptr(&self) -> u16
        ensures { result ≡ dptr_of self.now }
    {
        word(self.dph, self.dpl)
    }

    pub fn set_dptr(&mut self, address: u16)
        ensures { self.new ≡ pointed_of self.old address }
    {
        [self.dph, self.dpl] = address.to_be_bytes();
    }

    // The byte in R0 or R1.
    pub fn pointer(&self, n: u8) -> u8
        ensures { result ≡ pointer_of self.now n }
    {
        self.ram[self.psw as usize / 8 % 4 * 8 + n as usize % 2]
    }

    // Makes bit 0 of PSW 1 where A has an odd number of ones, else 0.
    pub fn settle(&mut self)
        ensures { self.new ≡ settled_of self.old }
    {
        self.psw = self.psw / 2 * 2 + parity(self.a);
    }
}
