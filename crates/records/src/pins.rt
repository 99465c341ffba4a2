ghost use Rattle.std.specs.Prelude.{◌≡◌, ℕ, ◌<◌, ◌≤◌, refl};
ghost use Rattle.std.proofs.Common.{lit<, lit≤};
ghost use Rattle.records.specs.Pin.{pin_bytes, pin_taken, pin_ordered};

use crate::ports::Port;
use crate::record::{Record, store};
use crate::refusals::Refusal;

// A port's pins have this level from this machine cycle on.
#[derive(Clone, Copy, Debug, PartialEq, Eq)]
pub struct PinRecord {
    pub cycle: u32,
    pub port: Port,
    pub level: u8,
}

impl PinRecord {
    // What the free places of a memory are filled with.
    pub const BLANK: PinRecord = PinRecord {
        cycle: 0,
        port: Port::P0,
        level: 0,
    };
}

impl Record for PinRecord {
    const WIDTH: usize = 8;

    ghost WIDTH = { 8 };

    ghost image = { pin_bytes };

    ghost taken = { pin_taken };

    ghost ordered = { pin_ordered };

    ghost wide = { lit< tt };

    ghost narrow = { lit≤ tt };

    ghost sized = { λ r. refl };

    fn put(&self, out: &mut [u8]) -> Result<(), Refusal> {
        let [c3, c2, c1, c0] = self.cycle.to_be_bytes();
        store(
            &[c3, c2, c1, c0, u8::from(self.port), self.level, 0, 0],
            out,
        )
    }

    fn take(bytes: &[u8]) -> Result<PinRecord, Refusal> {
        match bytes {
            [c3, c2, c1, c0, port, level, 0, 0] => {
                let cycle = u32::from_be_bytes([*c3, *c2, *c1, *c0]);
                let port = Port::try_from(*port)?;
                Ok(PinRecord {
                    cycle,
                    port,
                    level: *level,
                })
            }
            _ => Err(Refusal::FieldOutsideLayout),
        }
    }

    fn may_follow(&self, before: &PinRecord) -> bool {
        before.cycle <= self.cycle
    }
}
