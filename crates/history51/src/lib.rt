// The law of whole histories, of this machine: specs/View.antt and specs/Life.antt say what
// it is of, specs/Agrees.antt that its steps and runs are those of the calls, and specs/Calls.antt what is promised.
#![tactic(auto)]

ghost use Rattle.std.specs.Prelude.{ℕ};
ghost use Rattle.outcome.specs.Outcome.{kept};
ghost use Rattle.step51.specs.World.{World};
ghost use Rattle.step51.specs.Step.{step_of};
ghost use Rattle.step51.specs.Run.{Session, run_of};
ghost use Rattle.history51.specs.Calls.{Lives};
ghost use Rattle.history51.specs.Timeline.{Attains};
ghost use Rattle.history51.specs.Agrees.{StepLives, RunLives};

use boards::board::Board;

// From a new core, on any bus and with any such board, the promise holds after every list of resets, steps and runs; each step and each run of
// the machine, from any state, is the one of the law.
pub fn law_stands<D: Board>(_board: &D)
    ensures lives { Lives D.next }
    ensures steps { (w : World D.State) → StepLives D.next w (kept w (step_of D.next w)).0 (kept w (step_of D.next w)).1 }
    ensures runs { (s : Session D.State) (n : ℕ) → RunLives D.next s n (run_of D.next n s) }
{}

// The figure is reached on this core: a wait of 6 cycles, and one of 8 in which one instruction ends that does not poll.
pub fn limit_attained()
    ensures { Attains }
{}
