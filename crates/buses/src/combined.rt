ghost use Rattle.std.specs.Prelude.{◌≡◌};
ghost use Rattle.buses.specs.Buses.{combined_memory};
ghost use Rattle.buses.specs.Refusals.{meaning_of, combined_of};
ghost use Rattle.buses.specs.Laws.{combined_lawful};

use crate::bus::{Bus, BusFault};
use crate::lent::{byte_at, put_byte};
use crate::refusal::{Refusal, Rejected, has_size};

// One lent memory for code and data.
#[derive(Drop)]
pub struct CombinedBus<'a> {
    bytes: &'a mut [u8],
}

impl<'a> CombinedBus<'a> {
    // A bus over one memory of 1 to 65,536 bytes.
    pub fn new(bytes: &'a mut [u8]) -> Result<CombinedBus<'a>, Rejected<&'a mut [u8]>>
        ensures { meaning_of combined_memory result ≡ combined_of bytes.entry }
    {
        if has_size(bytes) {
            Ok(CombinedBus { bytes })
        } else {
            Err(Rejected {
                given: bytes,
                refusal: Refusal::MemorySize,
            })
        }
    }
}

impl Bus for CombinedBus<'_> {
    ghost memory = { combined_memory };

    ghost lawful = { λ s. combined_lawful s.bytes.now };

    fn code(&self, address: u16) -> Result<u8, BusFault> {
        self.read(address)
    }

    fn read(&self, address: u16) -> Result<u8, BusFault> {
        byte_at(self.bytes, address)
    }

    fn write(&mut self, address: u16, byte: u8) -> Result<(), BusFault> {
        put_byte(self.bytes, address, byte)
    }
}
