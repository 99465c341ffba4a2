ghost use Rattle.std.specs.Prelude.{◌≡◌};
ghost use Rattle.buses.specs.Layers.{fence_memory};
ghost use Rattle.buses.specs.Refusals.{meaning_of, fence_of};

use crate::bus::{Bus, BusFault};
use crate::refusal::{Refusal, Rejected};

// A layer whose data from a first to a last address cannot be written.
#[derive(Drop)]
pub struct Fence<B> {
    below: B,
    first: u16,
    last: u16,
}

impl<B: Bus> Fence<B> {
    // The bus below, with the data from the first to the last address unwritable.
    pub fn new(below: B, first: u16, last: u16) -> Result<Fence<B>, Rejected<B>>
        ensures { meaning_of (fence_memory B.memory) result ≡ fence_of B.memory below first last }
    {
        if first <= last {
            Ok(Fence { below, first, last })
        } else {
            Err(Rejected {
                given: below,
                refusal: Refusal::FirstAboveLast,
            })
        }
    }
}

impl<B: Bus> Bus for Fence<B> {
    ghost memory = { fence_memory B.Bus.memory };

    ghost lawful = { λ s. B.Bus.lawful s.below };

    fn code(&self, address: u16) -> Result<u8, BusFault> {
        Ok(self.below.code(address)?)
    }

    fn read(&self, address: u16) -> Result<u8, BusFault> {
        Ok(self.below.read(address)?)
    }

    fn write(&mut self, address: u16, byte: u8) -> Result<(), BusFault> {
        if (self.first..=self.last).contains(&address) {
            self.below.read(address)?;
            return Err(BusFault::Fenced);
        }
        self.below.write(address, byte)?;
        Ok(())
    }
}
