// Moves inside the chip, the stack, exchanges, code tables and external data.
ghost use Rattle.std.specs.Prelude.{◌≡◌};
ghost use Rattle.outcome.specs.Outcome.{kept};
ghost use Rattle.execute51.specs.Transfer.{look_up_of, movx_read_of, movx_write_of, transfer_of};

use crate::external;
use crate::external::Access;
use crate::values::Inputs;
use arithmetic::addresses::indexed;
use arithmetic::shifts::exchange_digits;
use buses::Bus;
use core51::fault::Fault;
use core51::state::Registers;
use instructions::{External, Transfer};

// A code byte into A, from a base address plus A.
fn look_up<B: Bus>(registers: &mut Registers, bus: &B, base: u16) -> Result<Option<u8>, Fault>
    ensures { (result, registers.new) ≡ kept registers.old (look_up_of base registers.old (B.memory bus.now)) }
{
    let byte = external::code(bus, indexed(base, registers.a))?;
    registers.a = byte;
    Ok(None)
}

// A byte of external data into A.
fn movx_read<B: Bus>(registers: &mut Registers, bus: &B, from: External) -> Result<Access, Fault>
    ensures { (result, registers.new) ≡ kept registers.old (movx_read_of from registers.old (B.memory bus.now)) }
{
    let address = external::address(registers, from);
    let byte = external::read(bus, address)?;
    registers.a = byte;
    Ok(Access::Read { address, byte })
}

// A into external data.
fn movx_write<B: Bus>(registers: &Registers, bus: &mut B, to: External) -> Result<Access, Fault>
    ensures { (result, B.memory bus.new) ≡ kept (B.memory bus.old) (movx_write_of to registers.now (B.memory bus.old)) }
{
    let address = external::address(registers, to);
    external::write(bus, address, registers.a)?;
    Ok(Access::Write {
        address,
        byte: registers.a,
    })
}

// The effect on the registers and the bus, the byte that the target becomes, and the access to external data.
pub(crate) fn effect<B: Bus>(
    registers: &mut Registers,
    bus: &mut B,
    i: Transfer,
    inputs: Inputs,
) -> Result<(Option<u8>, Option<Access>), Fault>
    ensures { (result, (registers.new, B.memory bus.new)) ≡ kept (registers.old, B.memory bus.old) (transfer_of i inputs.next inputs.target inputs.source registers.old (B.memory bus.old)) }
{
    let byte = match i {
        Transfer::Mov { source: from, .. } => Some(inputs.value(from)),
        Transfer::MovDptr(address) => {
            registers.set_dptr(address);
            None
        }
        Transfer::MovcDptr => look_up(registers, bus, registers.dptr())?,
        Transfer::MovcPc => look_up(registers, bus, inputs.next)?,
        Transfer::MovxRead(from) => return Ok((None, Some(movx_read(registers, bus, from)?))),
        Transfer::MovxWrite(to) => return Ok((None, Some(movx_write(registers, bus, to)?))),
        Transfer::Push(_) => {
            registers.push(inputs.source)?;
            None
        }
        Transfer::Pop(_) => Some(registers.pop()?),
        Transfer::Xch(_) => {
            let old = registers.a;
            registers.a = inputs.target;
            Some(old)
        }
        Transfer::Xchd(_) => {
            let (a, other) = exchange_digits(registers.a, inputs.target);
            registers.a = a;
            Some(other)
        }
    };
    Ok((byte, None))
}
