// Sums and differences into A, counting, multiplying, dividing, decimal adjustment.
ghost use Rattle.std.specs.Prelude.{◌≡◌};
ghost use Rattle.execute51.specs.Arithmetic.{resulting, both_resulting, arithmetic_of};

use crate::values::Inputs;
use arithmetic::bits::{AUXILIARY, CARRY, OVERFLOW, bit};
use arithmetic::sums::{add, decimal_adjust, divide, multiply, subtract};
use core51::state::Registers;
use instructions::Arithmetic;

// A result into A, with carry, auxiliary carry and overflow.
fn result(registers: &mut Registers, byte: u8, flags: u8)
    ensures { registers.new ≡ resulting registers.old (byte, flags) }
{
    registers.a = byte;
    registers.set_flags(CARRY + AUXILIARY + OVERFLOW, flags);
}

// Two results into A and B, with carry and overflow.
fn both(registers: &mut Registers, a: u8, b: u8, flags: u8)
    ensures { registers.new ≡ both_resulting registers.old (a, b, flags) }
{
    registers.a = a;
    registers.b = b;
    registers.set_flags(CARRY + OVERFLOW, flags);
}

// The effect on the registers, and the byte that the target becomes.
pub(crate) fn effect(registers: &mut Registers, i: Arithmetic, inputs: Inputs) -> Option<u8>
    ensures { (result, registers.new) ≡ arithmetic_of i inputs.target inputs.source registers.old }
{
    match i {
        Arithmetic::Add(from) => {
            let (sum, flags) = add(registers.a, inputs.value(from), false);
            result(registers, sum, flags);
            None
        }
        Arithmetic::Addc(from) => {
            let (sum, flags) = add(registers.a, inputs.value(from), registers.carry());
            result(registers, sum, flags);
            None
        }
        Arithmetic::Subb(from) => {
            let (rest, flags) = subtract(registers.a, inputs.value(from), registers.carry());
            result(registers, rest, flags);
            None
        }
        Arithmetic::Inc(_) => Some(inputs.target.wrapping_add(1)),
        Arithmetic::Dec(_) => Some(inputs.target.wrapping_sub(1)),
        Arithmetic::IncDptr => {
            registers.set_dptr(registers.dptr().wrapping_add(1));
            None
        }
        Arithmetic::Mul => {
            let (low, high, flags) = multiply(registers.a, registers.b);
            both(registers, low, high, flags);
            None
        }
        Arithmetic::Div => {
            let (quotient, rest, flags) = divide(registers.a, registers.b);
            both(registers, quotient, rest, flags);
            None
        }
        Arithmetic::Da => {
            let auxiliary = bit(registers.psw, 6);
            let (sum, flags) = decimal_adjust(registers.a, registers.carry(), auxiliary);
            registers.a = sum;
            registers.set_flags(CARRY, flags);
            None
        }
    }
}
