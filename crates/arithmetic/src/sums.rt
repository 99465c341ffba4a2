// Sum, difference, product, quotient and decimal adjustment: each answers its result and the flags.
ghost use Rattle.std.specs.Prelude.{◌≡◌};
ghost use Rattle.arithmetic.specs.Flags.{flags_of};
ghost use Rattle.arithmetic.specs.Sums.{add_of, subtract_of, multiply_of, divide_of, adjust_of};

// Three flags as they stand in PSW.
pub fn flags(carry: bool, auxiliary: bool, overflow: bool) -> u8
    ensures { result ≡ flags_of carry auxiliary overflow }
{
    0x80 * carry as u8 + 0x40 * auxiliary as u8 + 0x04 * overflow as u8
}

// The sum of two bytes and a carry.
pub fn add(a: u8, b: u8, carry: bool) -> (u8, u8)
    ensures { result ≡ add_of a b carry }
{
    let sum = a as u16 + b as u16 + carry as u16;
    let low = a % 16 + b % 16 + carry as u8;
    let seven = a % 128 + b % 128 + carry as u8;
    let out = sum > 0xff;
    (
        (sum % 256) as u8,
        flags(out, low > 0x0f, out != (seven > 0x7f)),
    )
}

// The difference of two bytes and a borrow. Source and borrow make one byte first, so that FFH with a borrow counts as 00H.
pub fn subtract(a: u8, source: u8, borrow: bool) -> (u8, u8)
    ensures { result ≡ subtract_of a source borrow }
{
    let b = source.wrapping_add(borrow as u8);
    let (difference, out) = a.overflowing_sub(b);
    (
        difference,
        flags(out, a % 16 < b % 16, out != (a % 128 < b % 128)),
    )
}

// The product: its low byte, its high byte, the flags.
pub fn multiply(a: u8, b: u8) -> (u8, u8, u8)
    ensures { result ≡ multiply_of a b }
{
    let product = a as u16 * b as u16;
    let [high, low] = product.to_be_bytes();
    (low, high, flags(false, false, product > 0xff))
}

// Quotient, remainder, flags; by 0 both bytes stay and overflow is set.
pub fn divide(a: u8, b: u8) -> (u8, u8, u8)
    ensures { result ≡ divide_of a b }
{
    if b == 0 {
        (a, b, flags(false, false, true))
    } else {
        (a / b, a % b, flags(false, false, false))
    }
}

// A sum of decimal digits, made decimal again.
pub fn decimal_adjust(a: u8, carry: bool, auxiliary: bool) -> (u8, u8)
    ensures { result ≡ adjust_of a carry auxiliary }
{
    let mut sum = a;
    let mut out = carry;
    if sum % 16 > 9 || auxiliary {
        out = out || sum >= 0xfa;
        sum = sum.wrapping_add(0x06);
    }
    if sum / 16 > 9 || out {
        out = out || sum >= 0xa0;
        sum = sum.wrapping_add(0x60);
    }
    (sum, flags(out, false, false))
}
