// The stack: SP tells the last byte that was pushed, and counts modulo 256.
ghost use Rattle.std.specs.Prelude.{◌≡◌};
ghost use Rattle.outcome.specs.Outcome.{kept};
ghost use Rattle.core51.specs.Stack.{push_of, pop_of, push_address_of, pop_address_of};

use crate::fault::Fault;
use crate::places::indirect;
use crate::state::Registers;
use arithmetic::addresses::word;

impl Registers {
    // Pushes a byte.
    pub fn push(&mut self, byte: u8) -> Result<(), Fault>
        ensures { (result, self.new) ≡ kept self.old (push_of self.old byte) }
    {
        let top = self.sp.wrapping_add(1);
        let place = indirect(top)?;
        self.store(place, byte);
        self.sp = top;
        Ok(())
    }

    // Pops a byte.
    pub fn pop(&mut self) -> Result<u8, Fault>
        ensures { (result, self.new) ≡ kept self.old (pop_of self.old) }
    {
        let place = indirect(self.sp)?;
        self.sp = self.sp.wrapping_sub(1);
        Ok(self.load(place))
    }

    // Pushes an address, low byte first.
    pub fn push_address(&mut self, address: u16) -> Result<(), Fault>
        ensures { (result, self.new) ≡ kept self.old (push_address_of self.old address) }
    {
        let first = self.sp.wrapping_add(1);
        let second = first.wrapping_add(1);
        let low = indirect(first)?;
        let high = indirect(second)?;
        let [high_byte, low_byte] = address.to_be_bytes();
        self.store(low, low_byte);
        self.store(high, high_byte);
        self.sp = second;
        Ok(())
    }

    // Pops an address, high byte first.
    pub fn pop_address(&mut self) -> Result<u16, Fault>
        ensures { (result, self.new) ≡ kept self.old (pop_address_of self.old) }
    {
        let second = self.sp.wrapping_sub(1);
        let high = indirect(self.sp)?;
        let low = indirect(second)?;
        self.sp = second.wrapping_sub(1);
        Ok(word(self.load(high), self.load(low)))
    }
}
