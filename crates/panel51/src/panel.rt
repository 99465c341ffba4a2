// The core and its calls new, reset and step.
ghost use Rattle.std.specs.Prelude.{◌≡◌, replicate};
ghost use Rattle.outcome.specs.Outcome.{kept};
ghost use Rattle.buses.specs.Memory.{Memory};
ghost use Rattle.step51.specs.World.{world};
ghost use Rattle.step51.specs.Reset.{fresh_state, reset_of};
ghost use Rattle.step51.specs.Step.{step_of};
ghost use Rattle.history51.specs.Agrees.{StepLives};
ghost use Rattle.panel51.specs.Panel.{panel_state};

use boards::board::Board;
use buses::Bus;
use core51::fault::Fault;
use cycles::machine::Machine;
use execute51::told::PortWrite;
use records::traces::TraceRecord;
use step51::reset::{drive_high, new_machine, reset_machine};
use step51::step::step;

// An 8051. Only its calls can change it; its bus and its board stand beside it.
#[derive(Drop)]
pub struct Panel51 {
    pub(crate) machine: Machine,
}

impl Panel51 {
    // A new core: registers as after a reset, all RAM bytes 00H. Nothing is driven.
    pub fn new() -> Panel51
        ensures { panel_state result ≡ fresh_state (replicate 128 0) }
    {
        Panel51 {
            machine: new_machine(),
        }
    }

    // Resets the core, whose RAM stays, and drives FFH to all four ports.
    pub fn reset<D: Board>(&mut self, board: &mut D)
        ensures { (m : Memory) → world (panel_state self.new) m (D.pins board.new) ≡ reset_of (world (panel_state self.old) m (D.pins board.old)) }
    {
        reset_machine(&mut self.machine);
        drive_high(board);
    }

    // Makes one step: its trace record and its port write, or why it is refused, with nothing changed.
    pub fn step<B: Bus, D: Board>(
        &mut self,
        bus: &mut B,
        board: &mut D,
    ) -> Result<(TraceRecord, Option<PortWrite>), Fault>
        ensures value { (result, world (panel_state self.new) (B.memory bus.new) (D.pins board.new)) ≡ kept (world (panel_state self.old) (B.memory bus.old) (D.pins board.old)) (step_of D.next (world (panel_state self.old) (B.memory bus.old) (D.pins board.old))) }
        ensures history { StepLives D.next (world (panel_state self.old) (B.memory bus.old) (D.pins board.old)) result (world (panel_state self.new) (B.memory bus.new) (D.pins board.new)) }
    {
        step(&mut self.machine, bus, board)
    }
}
