// And, or, exclusive or; clearing, complementing and rotating A.
ghost use Rattle.std.specs.Prelude.{◌≡◌};
ghost use Rattle.execute51.specs.Logical.{rotated, logical_of};

use crate::values::Inputs;
use arithmetic::bits::CARRY;
use arithmetic::shifts::{rotate_left, rotate_left_carry, rotate_right, rotate_right_carry, swap};
use core51::state::Registers;
use instructions::Logical;

// A rotated byte into A, with the carry that it gives.
fn rotate(registers: &mut Registers, byte: u8, flags: u8)
    ensures { registers.new ≡ rotated registers.old (byte, flags) }
{
    registers.a = byte;
    registers.set_flags(CARRY, flags);
}

// The effect on the registers, and the byte that the target becomes.
pub(crate) fn effect(registers: &mut Registers, i: Logical, inputs: Inputs) -> Option<u8>
    ensures { (result, registers.new) ≡ logical_of i inputs.target inputs.source registers.old }
{
    match i {
        Logical::Anl { source: from, .. } => return Some(inputs.target & inputs.value(from)),
        Logical::Orl { source: from, .. } => return Some(inputs.target | inputs.value(from)),
        Logical::Xrl { source: from, .. } => return Some(inputs.target ^ inputs.value(from)),
        Logical::ClrA => registers.a = 0,
        Logical::CplA => registers.a = !registers.a,
        Logical::Rl => registers.a = rotate_left(registers.a),
        Logical::Rlc => {
            let (byte, flags) = rotate_left_carry(registers.a, registers.carry());
            rotate(registers, byte, flags);
        }
        Logical::Rr => registers.a = rotate_right(registers.a),
        Logical::Rrc => {
            let (byte, flags) = rotate_right_carry(registers.a, registers.carry());
            rotate(registers, byte, flags);
        }
        Logical::Swap => registers.a = swap(registers.a),
    }
    None
}
