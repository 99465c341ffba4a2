// Single bits of a byte, its parity, and the flags inside PSW.
ghost use Rattle.std.specs.Prelude.{◌≡◌};
ghost use Rattle.arithmetic.specs.Bits.{parity_of, bit_of, with_bit_of, with_flags_of};

// The flags' bits in PSW.
pub const CARRY: u8 = 0x80;

pub const AUXILIARY: u8 = 0x40;

pub const OVERFLOW: u8 = 0x04;

// The byte that has only bit i.
const MASKS: [u8; 8] = [0x01, 0x02, 0x04, 0x08, 0x10, 0x20, 0x40, 0x80];

// 1 where a byte has an odd number of ones.
pub fn parity(a: u8) -> u8
    ensures { result ≡ parity_of a }
{
    (a.count_ones() % 2) as u8
}

// Bit i of a byte, counted modulo 8.
pub fn bit(a: u8, i: u8) -> bool
    ensures { result ≡ bit_of a i }
{
    (a >> (i % 8)) % 2 == 1
}

// A byte with bit i, counted modulo 8, put to a value.
#[tactic(auto, using(crate::proofs::Masks::set_by_mask, crate::proofs::Masks::cleared_by_mask))]
pub fn with_bit(a: u8, i: u8, value: bool) -> u8
    ensures { result ≡ with_bit_of a i value }
{
    let mask = MASKS[i as usize % 8];
    if value { a | mask } else { a & !mask }
}

// PSW with the affected flags as given, and every other bit as it was.
pub fn with_flags(psw: u8, affected: u8, flags: u8) -> u8
    ensures { result ≡ with_flags_of psw affected flags }
{
    psw & !affected | flags & affected
}
