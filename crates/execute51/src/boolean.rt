// The carry, single bits, and jumps on them.
ghost use Rattle.std.specs.Prelude.{◌≡◌};
ghost use Rattle.execute51.specs.Boolean.{carry_becomes, boolean_of};

use crate::values::Inputs;
use arithmetic::bits::{bit, with_bit};
use core51::state::Registers;
use instructions::Boolean;

fn put_carry(registers: &mut Registers, value: bool, next: u16) -> (Option<u8>, u16)
    ensures { (result, registers.new) ≡ carry_becomes next value registers.old }
{
    registers.set_carry(value);
    (None, next)
}

// The effect on the registers, the byte that the target becomes, and the next address.
pub(crate) fn effect(registers: &mut Registers, i: Boolean, inputs: Inputs) -> (Option<u8>, u16)
    ensures { (result, registers.new) ≡ boolean_of i inputs.next inputs.target inputs.source registers.old }
{
    let carry = registers.carry();
    let Inputs {
        next,
        target,
        source,
    } = inputs;
    match i {
        Boolean::ClrC => put_carry(registers, false, next),
        Boolean::Clr(b) => (Some(with_bit(target, b, false)), next),
        Boolean::SetbC => put_carry(registers, true, next),
        Boolean::Setb(b) => (Some(with_bit(target, b, true)), next),
        Boolean::CplC => put_carry(registers, !carry, next),
        Boolean::Cpl(b) => (Some(with_bit(target, b, !bit(target, b))), next),
        Boolean::AnlC(b) => put_carry(registers, carry & bit(source, b), next),
        Boolean::AnlCNot(b) => put_carry(registers, carry & !bit(source, b), next),
        Boolean::OrlC(b) => put_carry(registers, carry | bit(source, b), next),
        Boolean::OrlCNot(b) => put_carry(registers, carry | !bit(source, b), next),
        Boolean::MovC(b) => put_carry(registers, bit(source, b), next),
        Boolean::MovBit(b) => (Some(with_bit(target, b, carry)), next),
        Boolean::Jc { offset } => (None, inputs.jump(offset, carry)),
        Boolean::Jnc { offset } => (None, inputs.jump(offset, !carry)),
        Boolean::Jb { bit: b, offset } => (None, inputs.jump(offset, bit(source, b))),
        Boolean::Jnb { bit: b, offset } => (None, inputs.jump(offset, !bit(source, b))),
        Boolean::Jbc { bit: b, offset } => (
            Some(with_bit(target, b, false)),
            inputs.jump(offset, bit(target, b)),
        ),
    }
}
