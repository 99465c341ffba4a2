ghost use Rattle.std.specs.Prelude.{◌≡◌};
ghost use Rattle.buses.specs.Layers.{shifted, shift_memory};
ghost use Rattle.buses.specs.Laws.{shifted_lawful};

use crate::bus::{Bus, BusFault};

// A layer that adds a fixed number to every address, modulo 65,536.
#[derive(Drop)]
pub struct Shift<B> {
    below: B,
    by: u16,
}

impl<B: Bus> Shift<B> {
    // The bus below, with this number added to every address.
    pub fn new(below: B, by: u16) -> Shift<B>
        ensures { shift_memory B.memory result ≡ shifted by (B.memory below) }
    {
        Shift { below, by }
    }
}

impl<B: Bus> Bus for Shift<B> {
    ghost memory = { shift_memory B.Bus.memory };

    ghost lawful = { λ s. shifted_lawful s.by (B.Bus.memory s.below) (B.Bus.lawful s.below) };

    fn code(&self, address: u16) -> Result<u8, BusFault> {
        Ok(self.below.code(address.wrapping_add(self.by))?)
    }

    fn read(&self, address: u16) -> Result<u8, BusFault> {
        Ok(self.below.read(address.wrapping_add(self.by))?)
    }

    fn write(&mut self, address: u16, byte: u8) -> Result<(), BusFault> {
        self.below.write(address.wrapping_add(self.by), byte)?;
        Ok(())
    }
}
