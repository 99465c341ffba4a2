ghost use Rattle.std.specs.Prelude.{◌≡◌, replicate};
ghost use Rattle.buses.specs.Layers.{paged, page_memory};
ghost use Rattle.buses.specs.Laws.{paged_lawful};

use crate::bus::{Bus, BusFault};

// A layer with 256 data bytes of its own, at the addresses with one high byte.
#[derive(Drop)]
pub struct Page<B> {
    below: B,
    page: u8,
    bytes: [u8; 256],
}

impl<B: Bus> Page<B> {
    // The bus below, with 256 data bytes 00H at the addresses with this high byte.
    pub fn new(below: B, page: u8) -> Page<B>
        ensures { page_memory B.memory result ≡ paged page (replicate 256 0) (B.memory below) }
    {
        Page {
            below,
            page,
            bytes: [0; 256],
        }
    }
}

impl<B: Bus> Bus for Page<B> {
    ghost memory = { page_memory B.Bus.memory };

    ghost lawful = { λ s. paged_lawful s.page s.bytes (B.Bus.memory s.below) (B.Bus.lawful s.below) };

    fn code(&self, address: u16) -> Result<u8, BusFault> {
        Ok(self.below.code(address)?)
    }

    fn read(&self, address: u16) -> Result<u8, BusFault> {
        let [high, low] = address.to_be_bytes();
        if high == self.page {
            return Ok(self.bytes[low as usize]);
        }
        Ok(self.below.read(address)?)
    }

    fn write(&mut self, address: u16, byte: u8) -> Result<(), BusFault> {
        let [high, low] = address.to_be_bytes();
        if high == self.page {
            self.bytes[low as usize] = byte;
            return Ok(());
        }
        self.below.write(address, byte)?;
        Ok(())
    }
}
