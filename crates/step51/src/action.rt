// What a step does before its machine cycles.
ghost use Rattle.std.specs.Prelude.{◌≡◌};
ghost use Rattle.step51.specs.Action.{count_of, polls_of, port_of, kind_of};

use cycles::poll::Request;
use execute51::told::{PortWrite, Told};
use records::traces::StepKind;

// The vector call of a request, or an instruction with what it tells.
#[derive(Clone, Copy)]
pub enum Action {
    Called(Request),
    Executed(Told),
}

impl Action {
    // The machine cycles that follow.
    pub fn count(self) -> u8
        ensures { result ≡ count_of self }
    {
        match self {
            Action::Called(_) => 2,
            Action::Executed(told) => told.cycles,
        }
    }

    // Whether the last of them polls.
    pub fn polls(self) -> bool
        ensures { result ≡ polls_of self }
    {
        match self {
            Action::Called(_) => true,
            Action::Executed(told) => told.polls,
        }
    }

    // The port write, if there is one.
    pub fn port(self) -> Option<PortWrite>
        ensures { result ≡ port_of self }
    {
        match self {
            Action::Called(_) => None,
            Action::Executed(told) => told.port,
        }
    }

    // What the trace record says that it was.
    pub fn kind(self) -> StepKind
        ensures { result ≡ kind_of self }
    {
        match self {
            Action::Called(request) => StepKind::VectorCall {
                source: request.source,
            },
            Action::Executed(told) => StepKind::Instruction {
                opcode: told.opcode,
            },
        }
    }
}
