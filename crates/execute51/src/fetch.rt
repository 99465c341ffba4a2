// The bytes of an instruction.
ghost use Rattle.std.specs.Prelude.{◌≡◌};
ghost use Rattle.execute51.specs.Fetch.{operand_byte, fetch_of};

use crate::external::code;
use buses::Bus;
use core51::fault::Fault;
use instructions::tables::length;

// An opcode, the two bytes after it, 0 where the instruction has none, and the address after the instruction.
#[derive(Clone, Copy)]
pub(crate) struct Fetched {
    pub opcode: u8,
    pub first: u8,
    pub second: u8,
    pub next: u16,
}

fn operand<B: Bus>(bus: &B, pc: u16, size: u8, k: u8) -> Result<u8, Fault>
    ensures { result ≡ operand_byte (B.memory bus.now) pc size k }
{
    if k < size {
        code(bus, pc.wrapping_add(k as u16))
    } else {
        Ok(0)
    }
}

// The bytes of the instruction at an address.
#[tactic(auto, unfolding(crate::specs::Fetch::fetch_of))]
pub(crate) fn fetch<B: Bus>(bus: &B, pc: u16) -> Result<Fetched, Fault>
    ensures { result ≡ fetch_of (B.memory bus.now) pc }
{
    let opcode = code(bus, pc)?;
    let size = length(opcode);
    let first = operand(bus, pc, size, 1)?;
    let second = operand(bus, pc, size, 2)?;
    let next = pc.wrapping_add(size as u16);
    Ok(Fetched {
        opcode,
        first,
        second,
        next,
    })
}
