// Why an example has no answer to compare.
use core51::fault::Fault;
use std::alloc::{AllocError, AllocFailed};
use std::fmt;

#[derive(Clone, Copy)]
pub enum Problem {
    Code,
    Given,
    Expected,
    NoRoom,
    NoMemory,
    Refused(Fault),
}

impl fmt::Display for Problem {
    fn fmt<W: fmt::Write>(&self, f: &mut fmt::Formatter<W>) -> fmt::Result {
        match self {
            Problem::Code => write!(f, "wrong line: code"),
            Problem::Given => write!(f, "wrong line: given"),
            Problem::Expected => write!(f, "wrong line: expected"),
            Problem::NoRoom => write!(f, "wrong line: the code does not fit"),
            Problem::NoMemory => write!(f, "no memory"),
            Problem::Refused(fault) => write!(f, "refused {}", u8::from(*fault)),
        }
    }
}

impl From<Fault> for Problem {
    fn from(fault: Fault) -> Problem {
        Problem::Refused(fault)
    }
}

impl From<AllocError> for Problem {
    fn from(_: AllocError) -> Problem {
        Problem::NoMemory
    }
}

impl<T: Drop> From<AllocFailed<T>> for Problem {
    fn from(_: AllocFailed<T>) -> Problem {
        Problem::NoMemory
    }
}
