// Code and data addresses, modulo 65,536.
ghost use Rattle.std.specs.Prelude.{◌≡◌};
ghost use Rattle.arithmetic.specs.Addresses.{word_of, relative_of, absolute_of, indexed_of};

// Sixteen bits from their high and low byte.
pub fn word(high: u8, low: u8) -> u16
    ensures { result ≡ word_of high low }
{
    u16::from_be_bytes([high, low])
}

// The target of a relative jump, from the next instruction: 0 to 127 forward, or 128 to 1 back.
pub fn relative(next: u16, offset: u8) -> u16
    ensures { result ≡ relative_of next offset }
{
    if offset < 0x80 {
        next.wrapping_add(offset as u16)
    } else {
        next.wrapping_sub(256 - offset as u16)
    }
}

// The target of an absolute jump or call: the next instruction's block of 2,048 bytes, and the place in it.
pub fn absolute(next: u16, place: u16) -> u16
    ensures { result ≡ absolute_of next place }
{
    next / 2048 * 2048 + place % 2048
}

// A base address and the accumulator.
pub fn indexed(base: u16, a: u8) -> u16
    ensures { result ≡ indexed_of base a }
{
    base.wrapping_add(a as u16)
}
