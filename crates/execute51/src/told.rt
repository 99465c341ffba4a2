// What an executed instruction tells.
ghost use Rattle.std.specs.Prelude.{◌≡◌};
ghost use Rattle.execute51.specs.Told.{port_write_of};

use crate::external::Access;
use core51::places::Place;
use records::ports::Port;

// A byte that was put into the latch of a port, also if it was there before.
#[derive(Clone, Copy)]
pub struct PortWrite {
    pub port: Port,
    pub byte: u8,
}

// What an instruction did at the pins and on the bus.
#[derive(Clone, Copy)]
pub(crate) struct Done {
    pub port: Option<PortWrite>,
    pub access: Option<Access>,
}

// Opcode and machine cycles, whether a poll follows, whether it is RETI, its port write and its access to external data.
#[derive(Clone, Copy)]
pub struct Told {
    pub opcode: u8,
    pub cycles: u8,
    pub polls: bool,
    pub is_reti: bool,
    pub port: Option<PortWrite>,
    pub access: Option<Access>,
}

// The port write of an instruction that puts a byte into a place.
pub(crate) fn port_write(place: Option<Place>, byte: Option<u8>) -> Option<PortWrite>
    ensures { result ≡ port_write_of place byte }
{
    Some(PortWrite {
        port: place?.port()?,
        byte: byte?,
    })
}
