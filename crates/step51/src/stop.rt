// Why a run stops before its last step.
ghost use Rattle.std.specs.Prelude.{◌≡◌};
ghost use Rattle.step51.specs.declared.stop.Stop.TheVariants.{Refused};
ghost use Rattle.step51.specs.Stop.{stop_number};

use core51::fault::Fault;

#[derive(Clone, Copy, PartialEq, Eq, Debug)]
pub enum Stop {
    // a run above the most steps
    TooManySteps,
    // no place is left in a log
    LogFull,
    // the next step is refused
    Refused(Fault),
}

// The number that a run answers.
impl From<Stop> for u8 {
    ghost from_gives = { λ s n. n ≡ stop_number s };

    fn from(stop: Stop) -> u8 {
        match stop {
            Stop::TooManySteps => 6,
            Stop::LogFull => 8,
            Stop::Refused(refusal) => u8::from(refusal),
        }
    }
}

impl From<Fault> for Stop {
    ghost from_gives = { λ f s. s ≡ Refused f };

    fn from(fault: Fault) -> Stop {
        Stop::Refused(fault)
    }
}
