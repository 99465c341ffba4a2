ghost use Rattle.std.specs.Prelude.{◌≡◌, IfOk, Ok};
ghost use Rattle.records.specs.Port.{port_number, port_of};

use crate::refusals::Refusal;

// One of the four ports.
#[derive(Clone, Copy, Debug, PartialEq, Eq)]
pub enum Port {
    P0 = 0,
    P1 = 1,
    P2 = 2,
    P3 = 3,
}

// The number of a port, which gives the port back.
impl From<Port> for u8 {
    ghost from_gives = { λ p n. (n ≡ port_number p) × (port_of n ≡ Ok p) };

    fn from(port: Port) -> u8 {
        port as u8
    }
}

// The port that has just this number.
impl TryFrom<u8> for Port {
    type Error = Refusal;

    ghost try_from_gives = { λ n r. (r ≡ port_of n) × IfOk r (λ p. port_number p ≡ n) };

    fn try_from(n: u8) -> Result<Port, Refusal> {
        match n {
            0 => Ok(Port::P0),
            1 => Ok(Port::P1),
            2 => Ok(Port::P2),
            3 => Ok(Port::P3),
            _ => Err(Refusal::FieldOutsideLayout),
        }
    }
}
