// Calls, returns, jumps, compare and count.
ghost use Rattle.std.specs.Prelude.{◌≡◌};
ghost use Rattle.outcome.specs.Outcome.{kept};
ghost use Rattle.execute51.specs.Control.{compares, call_of, return_of, control_of};

use crate::values::Inputs;
use arithmetic::addresses::{absolute, indexed, relative};
use core51::fault::Fault;
use core51::state::Registers;
use instructions::{Control, Source};

fn call(registers: &mut Registers, next: u16, address: u16) -> Result<(Option<u8>, u16), Fault>
    ensures { (result, registers.new) ≡ kept registers.old (call_of next address registers.old) }
{
    registers.push_address(next)?;
    Ok((None, address))
}

fn go_back(registers: &mut Registers) -> Result<(Option<u8>, u16), Fault>
    ensures { (result, registers.new) ≡ kept registers.old (return_of registers.old) }
{
    let address = registers.pop_address()?;
    Ok((None, address))
}

// The carry tells that the first byte is below the second; the jump is taken where they differ.
fn compare(
    registers: &mut Registers,
    inputs: Inputs,
    offset: u8,
    first: u8,
    second: u8,
) -> (Option<u8>, u16)
    ensures { (result, registers.new) ≡ compares inputs.next offset first second registers.old }
{
    registers.set_carry(first < second);
    (None, inputs.jump(offset, first != second))
}

// The effect on the registers, the byte that the target becomes, and the next address.
pub(crate) fn effect(
    registers: &mut Registers,
    i: Control,
    inputs: Inputs,
) -> Result<(Option<u8>, u16), Fault>
    ensures { (result, registers.new) ≡ kept registers.old (control_of i inputs.next inputs.target inputs.source registers.old) }
{
    let a = registers.a;
    let Inputs {
        next,
        target,
        source,
    } = inputs;
    match i {
        Control::Acall(place) => call(registers, next, absolute(next, place)),
        Control::Lcall(address) => call(registers, next, address),
        Control::Ret | Control::Reti => go_back(registers),
        Control::Ajmp(place) => Ok((None, absolute(next, place))),
        Control::Ljmp(address) => Ok((None, address)),
        Control::Sjmp { offset } => Ok((None, relative(next, offset))),
        Control::JmpDptr => Ok((None, indexed(registers.dptr(), a))),
        Control::Jz { offset } => Ok((None, inputs.jump(offset, a == 0))),
        Control::Jnz { offset } => Ok((None, inputs.jump(offset, a != 0))),
        Control::Cjne {
            right: Source::Named(_),
            offset,
            ..
        } => Ok(compare(registers, inputs, offset, a, source)),
        Control::Cjne {
            right: Source::Immediate(constant),
            offset,
            ..
        } => Ok(compare(registers, inputs, offset, source, constant)),
        Control::Djnz { offset, .. } => {
            let count = target.wrapping_sub(1);
            Ok((Some(count), inputs.jump(offset, count != 0)))
        }
        Control::Nop => Ok((None, next)),
    }
}
