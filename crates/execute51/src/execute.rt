// One instruction: fetched, decoded, its places looked up, its effect made, its byte put back, PC stored last.
ghost use Rattle.std.specs.Prelude.{◌≡◌};
ghost use Rattle.outcome.specs.Outcome.{kept};
ghost use Rattle.execute51.specs.Execute.{is_exchange, target_byte, perform_of, instruction_of, execute_of};
ghost use Rattle.execute51.specs.Laws.{Shows, ShowsOpcode};

use crate::effect::effect;
use crate::fetch::fetch;
use crate::told::{Done, Told, port_write};
use crate::values::Inputs;
use boards::board::Board;
use buses::Bus;
use core51::fault::Fault;
use core51::parity::Core;
use core51::places::Place;
use core51::state::Chip;
use instructions::decode::decode;
use instructions::tables::cycles;
use instructions::{Instruction, Transfer};

// XCH is the one instruction that writes its operand and reads the pins of a port.
fn is_exchange(i: Instruction) -> bool
    ensures { result ≡ is_exchange i }
{
    matches!(i, Instruction::Transfer(Transfer::Xch(_)))
}

// The byte of the target, before the instruction.
fn target_byte<D: Board>(chip: &Chip, board: &D, i: Instruction, place: Option<Place>) -> u8
    ensures { result ≡ target_byte (D.pins board.now) chip.now i place }
{
    if is_exchange(i) {
        chip.read(place, board)
    } else {
        chip.held(place)
    }
}

// A decoded instruction, with the address after it. Chip, bus and board are parameters of their own: a rule of the project, bus and board
// stand beside the core.
#[tactic(auto, unfolding(crate::specs::Execute::perform_of))]
fn perform<B: Bus, D: Board>(
    chip: &mut Chip,
    bus: &mut B,
    board: &D,
    i: Instruction,
    next: u16,
) -> Result<Done, Fault>
    ensures { (result, (chip.new, B.memory bus.new)) ≡ kept (chip.old, B.memory bus.old) (perform_of (D.pins board.now) i next chip.old (B.memory bus.old)) }
{
    let places = chip.registers.places(i.operands())?;
    let inputs = Inputs {
        next,
        target: target_byte(chip, board, i, places.target),
        source: chip.read(places.source, board),
    };
    let answer = effect(&mut chip.registers, bus, i, inputs)?;
    chip.commit(places.target, answer.byte);
    chip.registers.pc = answer.next;
    Ok(Done {
        port: port_write(places.target, answer.byte),
        access: answer.access,
    })
}

// The instruction at PC, but for the parity of A.
#[tactic(auto, unfolding(crate::specs::Execute::instruction_of))]
fn instruction<B: Bus, D: Board>(chip: &mut Chip, bus: &mut B, board: &D) -> Result<Told, Fault>
    ensures { (result, (chip.new, B.memory bus.new)) ≡ kept (chip.old, B.memory bus.old) (instruction_of (D.pins board.now) chip.old (B.memory bus.old)) }
{
    let fetched = fetch(bus, chip.registers.pc)?;
    let i = decode(fetched.opcode, fetched.first, fetched.second).ok_or(Fault::NoInstruction)?;
    let done = perform(chip, bus, board, i, fetched.next)?;
    Ok(Told {
        opcode: fetched.opcode,
        cycles: cycles(fetched.opcode),
        polls: i.polls(),
        is_reti: i.is_reti(),
        port: done.port,
        access: done.access,
    })
}

// The instruction at PC: what it tells, or why it is refused, with nothing changed.
#[tactic(auto, unfolding(crate::specs::Execute::execute_of))]
pub fn execute<B: Bus, D: Board>(core: &mut Core, bus: &mut B, board: &D) -> Result<Told, Fault>
    ensures effect { (result, (core.new.chip, B.memory bus.new)) ≡ kept (core.old.chip, B.memory bus.old) (execute_of (D.pins board.now) core.old.chip (B.memory bus.old)) }
    ensures shows { Shows core.old.chip (B.memory bus.old) result core.new.chip (B.memory bus.new) }
    ensures opcode { ShowsOpcode result }
{
    let told = instruction(&mut core.chip, bus, board)?;
    core.chip.registers.settle();
    Ok(told)
}
