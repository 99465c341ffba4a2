// What an example starts from, or is to leave.
ghost use Rattle.std.specs.Prelude.{◌≡◌, is_some, nat_lt};

use arithmetic::bits::with_bit;
use core51::state::Registers;
use records::ports::Port;
use step51::reset::fresh_registers;

// A byte that a line of the table can name.
#[derive(Clone, Copy)]
pub enum Cell {
    A,
    B,
    Sp,
    Ram(u8),
    Latch(Port),
    Level(Port),
    External(u8),
}

// Anything that a line of the table can name.
#[derive(Clone, Copy)]
pub enum Part {
    Cell(Cell),
    // the bit of PSW, by the number that `with_bit` takes: an enum would be no plainer
    Flag(u8),
    Dptr,
    Pc,
    Steps,
    Cycles,
}

// Registers, the levels at the pins, the first 256 bytes of external data, and the steps and cycles that a line tells.
#[derive(Drop)]
pub struct Setup {
    pub registers: Registers,
    pub levels: [u8; 4],
    pub external: [u8; 256],
    pub steps: Option<u16>,
    pub cycles: Option<u16>,
}

impl Setup {
    // The state after a reset.
    pub fn reset() -> Setup {
        Setup {
            registers: fresh_registers([0; 128]),
            levels: [0xff; 4],
            external: [0; 256],
            steps: None,
            cycles: None,
        }
    }

    fn put_cell(&mut self, cell: Cell, byte: u8) {
        match cell {
            Cell::A => self.registers.a = byte,
            Cell::B => self.registers.b = byte,
            Cell::Sp => self.registers.sp = byte,
            Cell::Ram(at) => self.registers.ram[at as usize % 128] = byte,
            Cell::Latch(port) => self.registers.latches[u8::from(port) as usize] = byte,
            Cell::Level(port) => self.levels[u8::from(port) as usize] = byte,
            Cell::External(at) => self.external[at as usize] = byte,
        }
    }

    // Puts a value into a part, where it fits.
    pub fn put(&mut self, part: Part, value: u16) -> Option<()> {
        match part {
            Part::Cell(cell) => self.put_cell(cell, u8::try_from(value).ok()?),
            Part::Flag(bit) => {
                let psw = with_bit(self.registers.psw, bit, flag(value)?);
                self.registers.psw = psw;
            }
            Part::Dptr => self.registers.set_dptr(value),
            Part::Pc => self.registers.pc = value,
            Part::Steps => self.steps = Some(value),
            Part::Cycles => self.cycles = Some(value),
        }
        Some(())
    }
}

// A flag is 0 or 1.
fn flag(value: u16) -> Option<bool>
    ensures { is_some result ≡ nat_lt value 2 }
{
    match value {
        0 => Some(false),
        1 => Some(true),
        _ => None,
    }
}
