// The new machine and the reset.
ghost use Rattle.std.specs.Prelude.{◌≡◌, replicate};
ghost use Rattle.cycles.specs.State.{state_of};
ghost use Rattle.step51.specs.Reset.{reset_registers, fresh_timers, fresh_chip, fresh_interrupts, fresh_state, all_high, reset_state};

use boards::board::Board;
use core51::parity::Core;
use core51::state::{Chip, Control, Registers, Serial, Timer, Timers};
use cycles::machine::{Interrupts, Machine};
use cycles::sample::Sample;
use records::traces::Marks;

// The timers after a reset: they stand still at 0, and the pins of port 3 count as high before.
fn fresh_timers() -> Timers
    ensures { result ≡ fresh_timers }
{
    Timers {
        table: [Timer { low: 0, high: 0 }; 2],
        tcon: 0,
        tmod: 0,
        pins: 0xFF,
    }
}

// The interrupts after a reset: no service, no accepted request, nothing sampled.
fn fresh_interrupts() -> Interrupts
    ensures { result ≡ fresh_interrupts }
{
    Interrupts {
        marks: Marks {
            low: false,
            high: false,
        },
        accepted: None,
        sample: Sample::default(),
    }
}

// The registers of the processor after a reset, with this RAM.
pub fn fresh_registers(ram: [u8; 128]) -> Registers
    ensures { result ≡ reset_registers ram }
{
    Registers {
        a: 0,
        b: 0,
        psw: 0,
        sp: 7,
        dpl: 0,
        dph: 0,
        latches: [0xFF; 4],
        pc: 0,
        ram,
    }
}

// The chip after a reset, but for these registers.
pub fn fresh_chip(registers: Registers) -> Chip
    ensures { result ≡ fresh_chip registers }
{
    Chip {
        registers,
        timers: fresh_timers(),
        control: Control { ie: 0, ip: 0 },
        serial: Serial { scon: 0, sbuf: 0 },
    }
}

// The machine after a reset, with this RAM.
fn fresh_machine(ram: [u8; 128]) -> Machine
    ensures { state_of result ≡ fresh_state ram }
{
    Machine {
        core: Core {
            chip: fresh_chip(fresh_registers(ram)),
        },
        interrupts: fresh_interrupts(),
        cycles: 0,
    }
}

// A new machine: registers as after a reset, and all RAM bytes 00H.
pub fn new_machine() -> Machine
    ensures { state_of result ≡ fresh_state (replicate 128 0) }
{
    fresh_machine([0; 128])
}

// The machine after a reset; the RAM stays.
pub fn reset_machine(machine: &mut Machine)
    ensures { state_of machine.new ≡ reset_state (state_of machine.old) }
{
    *machine = fresh_machine(machine.core.chip.registers.ram);
}

// Drives FFH to all four ports.
pub fn drive_high<D: Board>(board: &mut D)
    ensures { D.pins board.new ≡ all_high (D.pins board.old) }
{
    board.drive(0, 0xFF);
    board.drive(1, 0xFF);
    board.drive(2, 0xFF);
    board.drive(3, 0xFF);
}
