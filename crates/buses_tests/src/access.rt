use buses::{Bus, BusFault, exchange};
use std::test::Fail;

// An access of a bus: the address, the byte to write, and the answer that is expected.
#[derive(Clone, Copy)]
pub enum Access {
    Code(u16, Result<u8, BusFault>),
    Read(u16, Result<u8, BusFault>),
    Write(u16, u8, Result<(), BusFault>),
    Exchange(u16, u8, Result<u8, BusFault>),
}

// Makes the accesses in turn on any bus, and compares the answers.
pub fn try_all<B: Bus>(bus: &mut B, accesses: &[Access]) -> Result<(), Fail> {
    for access in accesses {
        let same = match access {
            Access::Code(address, expected) => bus.code(*address) == *expected,
            Access::Read(address, expected) => bus.read(*address) == *expected,
            Access::Write(address, byte, expected) => bus.write(*address, *byte) == *expected,
            Access::Exchange(address, byte, expected) => {
                exchange(bus, *address, *byte) == *expected
            }
        };
        if !same {
            return Err(Fail::new("another answer than expected"));
        }
    }
    Ok(())
}
