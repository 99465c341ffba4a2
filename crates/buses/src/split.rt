ghost use Rattle.std.specs.Prelude.{◌≡◌};
ghost use Rattle.buses.specs.Buses.{split_memory};
ghost use Rattle.buses.specs.Refusals.{meaning_of, split_of};
ghost use Rattle.buses.specs.Laws.{split_lawful};

use crate::bus::{Bus, BusFault};
use crate::lent::{byte_at, put_byte};
use crate::refusal::{Refusal, Rejected, has_size};

// One lent memory for code and one for data.
#[derive(Drop)]
pub struct SplitBus<'a> {
    code: &'a [u8],
    data: &'a mut [u8],
}

impl<'a> SplitBus<'a> {
    // A bus over a memory for code and one for data, of 1 to 65,536 bytes each.
    pub fn new(code: &'a [u8], data: &'a mut [u8]) -> Result<SplitBus<'a>, Rejected<&'a mut [u8]>>
        ensures { meaning_of split_memory result ≡ split_of code.entry «data».entry }
    {
        if has_size(code) && has_size(data) {
            Ok(SplitBus { code, data })
        } else {
            Err(Rejected {
                given: data,
                refusal: Refusal::MemorySize,
            })
        }
    }
}

impl Bus for SplitBus<'_> {
    ghost memory = { split_memory };

    ghost lawful = { λ s. split_lawful s.code.now s.«data».now };

    fn code(&self, address: u16) -> Result<u8, BusFault> {
        byte_at(self.code, address)
    }

    fn read(&self, address: u16) -> Result<u8, BusFault> {
        byte_at(self.data, address)
    }

    fn write(&mut self, address: u16, byte: u8) -> Result<(), BusFault> {
        put_byte(self.data, address, byte)
    }
}
