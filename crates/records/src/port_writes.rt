ghost use Rattle.std.specs.Prelude.{◌≡◌, ℕ, ◌<◌, ◌≤◌, refl};
ghost use Rattle.std.proofs.Common.{lit<, lit≤};
ghost use Rattle.records.specs.PortWrite.{port_bytes, port_taken, port_ordered};

use crate::ports::Port;
use crate::record::{Record, store};
use crate::refusals::Refusal;

// A step of a run wrote this byte to a port's latch; steps count from 0.
#[derive(Clone, Copy, Debug, PartialEq, Eq)]
pub struct PortRecord {
    pub port: Port,
    pub byte: u8,
    pub step: u16,
}

impl PortRecord {
    // What the free places of a memory are filled with.
    pub const BLANK: PortRecord = PortRecord {
        port: Port::P0,
        byte: 0,
        step: 0,
    };
}

impl Record for PortRecord {
    const WIDTH: usize = 4;

    ghost WIDTH = { 4 };

    ghost image = { port_bytes };

    ghost taken = { port_taken };

    ghost ordered = { port_ordered };

    ghost wide = { lit< tt };

    ghost narrow = { lit≤ tt };

    ghost sized = { λ r. refl };

    fn put(&self, out: &mut [u8]) -> Result<(), Refusal> {
        let [s1, s0] = self.step.to_be_bytes();
        store(&[u8::from(self.port), self.byte, s1, s0], out)
    }

    fn take(bytes: &[u8]) -> Result<PortRecord, Refusal> {
        match bytes {
            [port, byte, s1, s0] => {
                let step = u16::from_be_bytes([*s1, *s0]);
                let port = Port::try_from(*port)?;
                Ok(PortRecord {
                    port,
                    byte: *byte,
                    step,
                })
            }
            _ => Err(Refusal::FieldOutsideLayout),
        }
    }

    fn may_follow(&self, _before: &PortRecord) -> bool {
        true
    }
}
