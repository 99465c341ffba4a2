// The vector call, and what RETI does to the marks.
ghost use Rattle.std.specs.Prelude.{◌≡◌};
ghost use Rattle.outcome.specs.Outcome.{kept};
ghost use Rattle.cycles.specs.State.{state_of};
ghost use Rattle.cycles.specs.Vector.{marked_of, returned_of, acknowledged_of, enter_of, vector_call_of, ended_of};

use crate::flags::{EXTERNAL0, EXTERNAL1};
use crate::machine::Machine;
use crate::poll::{Level, Request};
use arithmetic::bits::with_bit;
use core51::fault::Fault;
use core51::state::Registers;
use instructions::tables::vector;
use records::traces::{Marks, Source};

// The marks with that of a level set.
fn marked(level: Level, marks: Marks) -> Marks
    ensures { result ≡ marked_of level marks }
{
    match level {
        Level::Low => Marks { low: true, ..marks },
        Level::High => Marks {
            high: true,
            ..marks
        },
    }
}

// The marks after RETI: the high one cleared if it is set, else the low one.
fn returned(marks: Marks) -> Marks
    ensures { result ≡ returned_of marks }
{
    if marks.high {
        Marks {
            high: false,
            ..marks
        }
    } else {
        Marks {
            low: false,
            ..marks
        }
    }
}

// TCON when a source is called.
fn acknowledged(source: Source, tcon: u8) -> u8
    ensures { result ≡ acknowledged_of source tcon }
{
    match source {
        Source::External0 => EXTERNAL0.cleared(tcon),
        Source::Timer0 => with_bit(tcon, 5, false),
        Source::External1 => EXTERNAL1.cleared(tcon),
        Source::Timer1 => with_bit(tcon, 7, false),
        Source::Serial => tcon,
    }
}

// Pushes PC, which goes to an address.
fn enter(registers: &mut Registers, address: u16) -> Result<(), Fault>
    ensures { (result, registers.new) ≡ kept registers.old (enter_of address registers.old) }
{
    registers.push_address(registers.pc)?;
    registers.pc = address;
    Ok(())
}

impl Machine {
    // The vector call of an accepted request, before its cycles.
    #[tactic(auto, unfolding(crate::specs::Vector::vector_call_of))]
    pub fn vector_call(&mut self, request: Request) -> Result<(), Fault>
        ensures { (result, state_of self.new) ≡ kept (state_of self.old) (vector_call_of request (state_of self.old)) }
    {
        enter(&mut self.core.chip.registers, vector(request.source))?;
        let timers = &mut self.core.chip.timers;
        timers.tcon = acknowledged(request.source, timers.tcon);
        self.interrupts.marks = marked(request.level, self.interrupts.marks);
        self.interrupts.accepted = None;
        Ok(())
    }

    // What RETI does beside its return: it ends the service in progress that has the highest level.
    pub fn end_service(&mut self)
        ensures { state_of self.new ≡ ended_of (state_of self.old) }
    {
        self.interrupts.marks = returned(self.interrupts.marks);
    }
}
