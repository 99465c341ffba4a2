// A byte of a lent memory, read and written at an address.
ghost use Rattle.std.specs.Prelude.{◌≡◌};
ghost use Rattle.outcome.specs.Outcome.{kept};
ghost use Rattle.buses.specs.Memory.{answer};
ghost use Rattle.buses.specs.Buses.{byte_at, put_of};

use crate::bus::BusFault;

// The byte at an address.
pub(crate) fn byte_at(bytes: &[u8], address: u16) -> Result<u8, BusFault>
    ensures { result ≡ answer (byte_at bytes.now address) }
{
    bytes
        .get(address as usize)
        .copied()
        .ok_or(BusFault::NotFitted)
}

// Puts a byte at an address.
pub(crate) fn put_byte(bytes: &mut [u8], address: u16, byte: u8) -> Result<(), BusFault>
    ensures { (result, bytes.new) ≡ kept bytes.old (put_of bytes.old address byte) }
{
    // By index: tried with `get_mut`, whose contract does not say what the slice ends as, and the proof did not close.
    let at = address as usize;
    if at >= bytes.len() {
        return Err(BusFault::NotFitted);
    }
    bytes[at] = byte;
    Ok(())
}
