// Executes the code of an example.
ghost use Rattle.std.specs.Prelude.{◌≡◌};
ghost use Rattle.core51.specs.Registers.{settled_of};

use crate::levels::Levels;
use crate::problem::Problem;
use crate::setup::Setup;
use crate::table::Code;
use boards::board::Board;
use buses::{Bus, SplitBus};
use core51::parity::Core;
use core51::state::Registers;
use execute51::execute::execute;
use step51::reset::fresh_chip;

const CODE: usize = 1024;

// A core with these registers, else as after a reset.
fn core(mut registers: Registers) -> Core
    ensures { result.chip.registers ≡ settled_of registers }
{
    registers.settle();
    Core {
        chip: fresh_chip(registers),
    }
}

// Copies bytes to an address of the code memory, if they fit there.
fn place(memory: &mut [u8; CODE], from: u16, bytes: &[u8]) -> Option<()> {
    for (at, byte) in (usize::from(from)..).zip(bytes) {
        *memory.get_mut(at)? = *byte;
    }
    Some(())
}

// Executes so many instructions, and counts their machine cycles.
fn steps<B: Bus, D: Board>(
    core: &mut Core,
    bus: &mut B,
    board: &D,
    count: u16,
) -> Result<u16, Problem> {
    let mut cycles = 0u16;
    for _ in 0..count {
        let told = execute(core, bus, board)?;
        cycles = cycles.wrapping_add(u16::from(told.cycles));
    }
    Ok(cycles)
}

// What the code of an example leaves.
pub fn run(start: Setup, code: &Code) -> Result<Setup, Problem> {
    let Setup {
        registers,
        levels,
        mut external,
        steps: told,
        cycles: _,
    } = start;
    let count = told.unwrap_or(code.instructions);
    let mut memory = [0u8; CODE];
    place(&mut memory, registers.pc, code.bytes.as_slice()).ok_or(Problem::NoRoom)?;
    let board = Levels::new(levels);
    let mut core = core(registers);
    let Ok(mut bus) = SplitBus::new(&memory, &mut external) else {
        return Err(Problem::NoRoom);
    };
    let cycles = steps(&mut core, &mut bus, &board, count)?;
    let Core { chip } = core;
    Ok(Setup {
        registers: chip.registers,
        levels,
        external,
        steps: Some(count),
        cycles: Some(cycles),
    })
}
