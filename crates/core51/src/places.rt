// Places: the bytes inside the chip that an instruction can name.
ghost use Rattle.std.specs.Prelude.{◌≡◌};
ghost use Rattle.core51.specs.Places.{get_of, put_of, latch_of, write_of, port_of, pins_of, direct_of, indirect_of, bit_place_of, register_of, place_of, load_of, store_of};

use crate::fault::Fault;
use crate::state::{Chip, Registers};
use boards::board::Board;
use instructions::Operand;
use instructions::tables::is_register;
use records::ports::Port;

const ACC: u8 = 0xe0;

// A byte that is there: below 80H in the RAM, from 80H on a register.
// An address is data of the emulated program; an enum of the registers would be no plainer, for it would
// need the rows below twice more, from the address and back.
#[derive(Clone, Copy)]
pub struct Place {
    at: u8,
}

// The place of a direct address.
pub(crate) fn direct(address: u8) -> Result<Place, Fault>
    ensures { result ≡ direct_of address }
{
    if address < 0x80 || is_register(address) {
        Ok(Place { at: address })
    } else {
        Err(Fault::NoRegister)
    }
}

// The place of an indirect or stack address, which is always in the RAM.
pub(crate) fn indirect(address: u8) -> Result<Place, Fault>
    ensures { result ≡ indirect_of address }
{
    if address < 0x80 {
        Ok(Place { at: address })
    } else {
        Err(Fault::NoRam)
    }
}

// The byte that holds a bit.
fn bit_place(bit: u8) -> Result<Place, Fault>
    ensures { result ≡ bit_place_of bit }
{
    if bit < 0x80 {
        Ok(Place { at: 0x20 + bit / 8 })
    } else {
        direct(bit / 8 * 8)
    }
}

impl Registers {
    // R0 to R7 of the bank that bits 4 and 3 of PSW choose.
    pub(crate) fn register(&self, n: u8) -> Place
        ensures { result ≡ register_of self.now n }
    {
        Place {
            at: self.psw / 8 % 4 * 8 + n % 8,
        }
    }

    // The place that an operand names.
    pub(crate) fn place(&self, operand: Operand) -> Result<Place, Fault>
        ensures { result ≡ place_of self.now operand }
    {
        match operand {
            Operand::Accumulator => Ok(Place { at: ACC }),
            Operand::Register(n) => Ok(self.register(n)),
            Operand::Direct(address) => direct(address),
            Operand::Indirect(n) => indirect(self.pointer(n)),
            Operand::Bit(bit) => bit_place(bit),
        }
    }

    // The byte at a place in the RAM.
    pub(crate) fn load(&self, place: Place) -> u8
        ensures { result ≡ load_of self.now place }
    {
        self.ram[place.at as usize % 128]
    }

    pub(crate) fn store(&mut self, place: Place, byte: u8)
        ensures { self.new ≡ store_of self.old place byte }
    {
        self.ram[place.at as usize % 128] = byte;
    }
}

impl Place {
    // The port whose latch it is.
    pub fn port(self) -> Option<Port>
        ensures { result ≡ port_of self }
    {
        match self.at {
            0x80 => Some(Port::P0),
            0x90 => Some(Port::P1),
            0xa0 => Some(Port::P2),
            0xb0 => Some(Port::P3),
            _ => None,
        }
    }
}

impl Chip {
    // The register at an address from 80H on; a port's latch.
    // Read and write stay two matches, as the library's get and get_mut: one takes &self, the other &mut self.
    #[tactic(auto, unfolding(crate::specs::Places::get_of))]
    fn get(&self, address: u8) -> u8
        ensures { result ≡ get_of self.now address }
    {
        match address {
            0x80 => self.registers.latches[0],
            0x81 => self.registers.sp,
            0x82 => self.registers.dpl,
            0x83 => self.registers.dph,
            0x88 => self.timers.tcon,
            0x89 => self.timers.tmod,
            0x8a => self.timers.table[0].low,
            0x8b => self.timers.table[1].low,
            0x8c => self.timers.table[0].high,
            0x8d => self.timers.table[1].high,
            0x90 => self.registers.latches[1],
            0x98 => self.serial.scon,
            0x99 => self.serial.sbuf,
            0xa0 => self.registers.latches[2],
            0xa8 => self.control.ie,
            0xb0 => self.registers.latches[3],
            0xb8 => self.control.ip,
            0xd0 => self.registers.psw,
            0xe0 => self.registers.a,
            0xf0 => self.registers.b,
            _ => 0,
        }
    }

    #[tactic(auto, unfolding(crate::specs::Places::put_of))]
    fn put(&mut self, address: u8, byte: u8)
        ensures { self.new ≡ put_of self.old address byte }
    {
        match address {
            0x80 => self.registers.latches[0] = byte,
            0x81 => self.registers.sp = byte,
            0x82 => self.registers.dpl = byte,
            0x83 => self.registers.dph = byte,
            0x88 => self.timers.tcon = byte,
            0x89 => self.timers.tmod = byte,
            0x8a => self.timers.table[0].low = byte,
            0x8b => self.timers.table[1].low = byte,
            0x8c => self.timers.table[0].high = byte,
            0x8d => self.timers.table[1].high = byte,
            0x90 => self.registers.latches[1] = byte,
            0x98 => self.serial.scon = byte,
            0x99 => self.serial.sbuf = byte,
            0xa0 => self.registers.latches[2] = byte,
            0xa8 => self.control.ie = byte,
            0xb0 => self.registers.latches[3] = byte,
            0xb8 => self.control.ip = byte,
            0xd0 => self.registers.psw = byte,
            0xe0 => self.registers.a = byte,
            0xf0 => self.registers.b = byte,
            _ => {}
        }
    }

    // What a place holds; of a port the latch.
    #[tactic(auto, unfolding(crate::specs::Places::latch_of))]
    pub(crate) fn latch(&self, place: Place) -> u8
        ensures { result ≡ latch_of self.now place }
    {
        if place.at < 0x80 {
            self.registers.ram[place.at as usize]
        } else {
            self.get(place.at)
        }
    }

    // What a place shows; of a port the pins.
    pub(crate) fn pins<D: Board>(&self, place: Place, board: &D) -> u8
        ensures { result ≡ pins_of (D.pins board.now) self.now place }
    {
        let byte = self.latch(place);
        match place.port() {
            Some(port) => byte & board.level(u8::from(port)),
            None => byte,
        }
    }

    // Puts a byte into a place.
    #[tactic(auto, unfolding(crate::specs::Places::write_of))]
    pub(crate) fn write(&mut self, place: Place, byte: u8)
        ensures { self.new ≡ write_of self.old place byte }
    {
        if place.at < 0x80 {
            self.registers.ram[place.at as usize] = byte;
        } else {
            self.put(place.at, byte);
        }
    }
}
