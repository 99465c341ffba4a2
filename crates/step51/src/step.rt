// One step: a vector call or an instruction, its port write, its machine cycles.
ghost use Rattle.std.specs.Prelude.{◌≡◌};
ghost use Rattle.outcome.specs.Outcome.{kept};
ghost use Rattle.cycles.specs.State.{state_of};
ghost use Rattle.step51.specs.World.{world};
ghost use Rattle.step51.specs.Action.{cycles_named, trace_of};
ghost use Rattle.step51.specs.Step.{act_of, driven_to, begin_of, step_of};

use crate::action::Action;
use boards::board::Board;
use buses::Bus;
use core51::fault::Fault;
use cycles::machine::Machine;
use execute51::execute::execute;
use execute51::told::PortWrite;
use records::traces::{Cycles, TraceRecord};

// A step begins after at most so many machine cycles.
const LAST_START: u32 = 3_999_999_996;

// The vector call of the accepted request, or the instruction at PC. Machine, bus and board are parameters of their own: a rule of the
// project, bus and board stand beside the core.
#[tactic(auto, unfolding(crate::specs::Step::act_of))]
fn act<B: Bus, D: Board>(machine: &mut Machine, bus: &mut B, board: &D) -> Result<Action, Fault>
    ensures { (result, (state_of machine.new, B.memory bus.new)) ≡ kept (state_of machine.old, B.memory bus.old) (act_of (D.pins board.now) (state_of machine.old) (B.memory bus.old)) }
{
    match machine.interrupts.accepted {
        Some(request) => {
            machine.vector_call(request)?;
            Ok(Action::Called(request))
        }
        None => {
            let told = execute(&mut machine.core, bus, board)?;
            if told.is_reti {
                machine.end_service();
            }
            Ok(Action::Executed(told))
        }
    }
}

// Drives a port write to the board.
fn drive<D: Board>(board: &mut D, write: Option<PortWrite>)
    ensures { D.pins board.new ≡ driven_to write (D.pins board.old) }
{
    if let Some(PortWrite { port, byte }) = write {
        board.drive(u8::from(port), byte);
    }
}

// What a step does before its machine cycles, or why it is refused.
#[tactic(auto, unfolding(crate::specs::Step::begin_of))]
fn begin<B: Bus, D: Board>(
    machine: &mut Machine,
    bus: &mut B,
    board: &mut D,
) -> Result<Action, Fault>
    ensures { (result, world (state_of machine.new) (B.memory bus.new) (D.pins board.new)) ≡ kept (world (state_of machine.old) (B.memory bus.old) (D.pins board.old)) (begin_of (world (state_of machine.old) (B.memory bus.old) (D.pins board.old))) }
{
    if machine.cycles > LAST_START {
        return Err(Fault::TimeOver);
    }
    let action = act(machine, bus, board)?;
    drive(board, action.port());
    Ok(action)
}

// The machine cycles of a step, as a trace record names them: no step has another count.
fn cycles_named(count: u8) -> Cycles
    ensures { result ≡ cycles_named count }
{
    Cycles::try_from(count).unwrap_or(Cycles::Four)
}

// The trace record of a step that began at an address and is complete.
fn trace(machine: &Machine, pc: u16, action: Action) -> TraceRecord
    ensures { result ≡ trace_of pc action (state_of machine.now) }
{
    TraceRecord {
        kind: action.kind(),
        pc,
        cycles: cycles_named(action.count()),
        marks: machine.interrupts.marks,
        accumulator: machine.core.chip.registers.a,
    }
}

// One step: its trace record and its port write, or why it is refused, with nothing changed.
#[tactic(auto, unfolding(crate::specs::Step::step_of))]
pub fn step<B: Bus, D: Board>(
    machine: &mut Machine,
    bus: &mut B,
    board: &mut D,
) -> Result<(TraceRecord, Option<PortWrite>), Fault>
    ensures { (result, world (state_of machine.new) (B.memory bus.new) (D.pins board.new)) ≡ kept (world (state_of machine.old) (B.memory bus.old) (D.pins board.old)) (step_of D.next (world (state_of machine.old) (B.memory bus.old) (D.pins board.old))) }
{
    let pc = machine.core.chip.registers.pc;
    let action = begin(machine, bus, board)?;
    machine.run_cycles(board, action.count(), action.polls());
    Ok((trace(machine, pc, action), action.port()))
}
