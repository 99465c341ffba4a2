// The effect of any instruction on the registers and the bus.
ghost use Rattle.std.specs.Prelude.{◌≡◌};
ghost use Rattle.outcome.specs.Outcome.{kept};
ghost use Rattle.execute51.specs.Effect.{inside_chip, effect_of};

use crate::external::Access;
use crate::values::Inputs;
use crate::{arithmetical, boolean, control, logical, transfer};
use buses::Bus;
use core51::fault::Fault;
use core51::state::Registers;
use instructions::Instruction;

// The byte that the target becomes, the next address, and the access to external data.
#[derive(Clone, Copy)]
pub(crate) struct Answer {
    pub byte: Option<u8>,
    pub next: u16,
    pub access: Option<Access>,
}

fn inside(byte: Option<u8>, next: u16) -> Answer
    ensures { result ≡ inside_chip byte next }
{
    Answer {
        byte,
        next,
        access: None,
    }
}

// The effect of an instruction, with the address after it and the bytes of its target and its source.
#[tactic(auto, unfolding(crate::specs::Effect::effect_of))]
pub(crate) fn effect<B: Bus>(
    registers: &mut Registers,
    bus: &mut B,
    i: Instruction,
    inputs: Inputs,
) -> Result<Answer, Fault>
    ensures { (result, (registers.new, B.memory bus.new)) ≡ kept (registers.old, B.memory bus.old) (effect_of i inputs.next inputs.target inputs.source registers.old (B.memory bus.old)) }
{
    match i {
        Instruction::Arithmetic(i) => {
            let byte = arithmetical::effect(registers, i, inputs);
            Ok(inside(byte, inputs.next))
        }
        Instruction::Logical(i) => {
            let byte = logical::effect(registers, i, inputs);
            Ok(inside(byte, inputs.next))
        }
        Instruction::Transfer(i) => {
            let (byte, access) = transfer::effect(registers, bus, i, inputs)?;
            Ok(Answer {
                byte,
                next: inputs.next,
                access,
            })
        }
        Instruction::Boolean(i) => {
            let (byte, to) = boolean::effect(registers, i, inputs);
            Ok(inside(byte, to))
        }
        Instruction::Control(i) => {
            let (byte, to) = control::effect(registers, i, inputs)?;
            Ok(inside(byte, to))
        }
    }
}
