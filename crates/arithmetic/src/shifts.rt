// Rotates, and exchanges of a byte's two digits.
ghost use Rattle.std.specs.Prelude.{◌≡◌};
ghost use Rattle.arithmetic.specs.Shifts.{rotate_left_of, rotate_right_of, carry_left_of, carry_right_of, swap_of, exchange_of};

use crate::sums::flags;

// Each bit one place up, bit 7 to bit 0.
#[tactic(auto, using(crate::proofs::Bytes::rotated_left))]
pub fn rotate_left(a: u8) -> u8
    ensures { result ≡ rotate_left_of a }
{
    a.rotate_left(1)
}

// Each bit one place down, bit 0 to bit 7.
#[tactic(auto, using(crate::proofs::Bytes::rotated_right))]
pub fn rotate_right(a: u8) -> u8
    ensures { result ≡ rotate_right_of a }
{
    a.rotate_right(1)
}

// Each bit one place up, the carry to bit 0, bit 7 to the carry.
pub fn rotate_left_carry(a: u8, carry: bool) -> (u8, u8)
    ensures { result ≡ carry_left_of a carry }
{
    ((a << 1) + carry as u8, flags(a >= 0x80, false, false))
}

// Each bit one place down, the carry to bit 7, bit 0 to the carry.
pub fn rotate_right_carry(a: u8, carry: bool) -> (u8, u8)
    ensures { result ≡ carry_right_of a carry }
{
    (
        (a >> 1) + 0x80 * carry as u8,
        flags(a % 2 == 1, false, false),
    )
}

// The two digits of a byte exchanged.
#[tactic(auto, using(crate::proofs::Bytes::swapped))]
pub fn swap(a: u8) -> u8
    ensures { result ≡ swap_of a }
{
    a.rotate_left(4)
}

// Two bytes with their low digits exchanged.
pub fn exchange_digits(a: u8, m: u8) -> (u8, u8)
    ensures { result ≡ exchange_of a m }
{
    (a / 16 * 16 + m % 16, m / 16 * 16 + a % 16)
}
