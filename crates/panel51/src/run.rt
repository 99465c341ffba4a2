// The call run.
ghost use Rattle.std.specs.Prelude.{◌≡◌};
ghost use Rattle.outcome.specs.Outcome.{kept};
ghost use Rattle.logs.specs.Log.{held};
ghost use Rattle.step51.specs.World.{world};
ghost use Rattle.history51.specs.Calls.{Lives};
ghost use Rattle.history51.specs.Agrees.{RunLives};
ghost use Rattle.panel51.specs.Panel.{panel_state};
ghost use Rattle.step51.specs.Run.{session, noted, turn_of, run_of};

use crate::panel::Panel51;
use boards::board::Board;
use buses::Bus;
use execute51::told::PortWrite;
use logs::log::Log;
use records::port_writes::PortRecord;
use records::traces::TraceRecord;
use step51::stop::Stop;

// The most steps of one run.
const MOST_STEPS: u32 = 65535;

// Enters the port write of step i, if there is one.
fn note(ports: &mut Log<'_, PortRecord>, i: u32, write: Option<PortWrite>)
    ensures value { held ports.new ≡ noted i write (held ports.old) }
    ensures lent { ports.new.places.ghost_name ≡ ports.old.places.ghost_name }
{
    if let Some(PortWrite { port, byte }) = write {
        let _ = ports.append(PortRecord {
            port,
            byte,
            step: (i % 65536) as u16,
        });
    }
}

impl Panel51 {
    // One step entered in the logs, or why the run stops before it. Bus, board and logs are parameters of their own, as those of run: a
    // rule of the project, they stand beside the core.
    #[tactic(auto, using(crate::proofs::Turns::turned))]
    fn turn<B: Bus, D: Board>(
        &mut self,
        bus: &mut B,
        board: &mut D,
        i: u32,
        traces: &mut Log<'_, TraceRecord>,
        ports: &mut Log<'_, PortRecord>,
    ) -> Result<(), Stop>
        ensures value { (result, session (world (panel_state self.new) (B.memory bus.new) (D.pins board.new)) (held traces.new) (held ports.new)) ≡ kept (session (world (panel_state self.old) (B.memory bus.old) (D.pins board.old)) (held traces.old) (held ports.old)) (turn_of D.next i (session (world (panel_state self.old) (B.memory bus.old) (D.pins board.old)) (held traces.old) (held ports.old))) }
        ensures lent { (traces.new.places.ghost_name ≡ traces.old.places.ghost_name) × (ports.new.places.ghost_name ≡ ports.old.places.ghost_name) }
    {
        if traces.is_full() || ports.is_full() {
            return Err(Stop::LogFull);
        }
        let (trace, write) = self.step(bus, board)?;
        let _ = traces.append(trace);
        note(ports, i, write);
        Ok(())
    }

    // Makes up to n steps, each entered in the trace log, and each port write in the port log. It answers the steps made and the
    // number that stopped it, 0 if none: a rule of the project, a pair of plain numbers.
    pub fn run<B: Bus, D: Board>(
        &mut self,
        bus: &mut B,
        board: &mut D,
        n: u32,
        traces: &mut Log<'_, TraceRecord>,
        ports: &mut Log<'_, PortRecord>,
    ) -> (u32, u8)
        ensures value { (result, session (world (panel_state self.new) (B.memory bus.new) (D.pins board.new)) (held traces.new) (held ports.new)) ≡ run_of D.next n (session (world (panel_state self.old) (B.memory bus.old) (D.pins board.old)) (held traces.old) (held ports.old)) }
        ensures lent { (traces.new.places.ghost_name ≡ traces.old.places.ghost_name) × (ports.new.places.ghost_name ≡ ports.old.places.ghost_name) }
        ensures lives { Lives D.next }
        ensures history { RunLives D.next (session (world (panel_state self.old) (B.memory bus.old) (D.pins board.old)) (held traces.old) (held ports.old)) n (result, session (world (panel_state self.new) (B.memory bus.new) (D.pins board.new)) (held traces.new) (held ports.new)) }
    {
        if n > MOST_STEPS {
            return (0, u8::from(Stop::TooManySteps));
        }
        for i in 0..n {
            match self.turn(bus, board, i, traces, ports) {
                Ok(()) => {}
                Err(stop) => return (i, u8::from(stop)),
            }
        }
        (n, 0)
    }
}
