// Code bytes and external data bytes, by the bus.
ghost use Rattle.std.specs.Prelude.{◌≡◌};
ghost use Rattle.outcome.specs.Outcome.{kept};
ghost use Rattle.execute51.specs.External.{code_of, data_of, write_data_of, address_of};

use buses::Bus;
use core51::fault::Fault;
use core51::state::Registers;
use instructions::External;

// An access to external data, as the bus gets it.
#[derive(Clone, Copy)]
pub enum Access {
    Read { address: u16, byte: u8 },
    Write { address: u16, byte: u8 },
}

// A byte of the code.
pub(crate) fn code<B: Bus>(bus: &B, address: u16) -> Result<u8, Fault>
    ensures { result ≡ code_of (B.memory bus.now) address }
{
    bus.code(address).map_err(|_| Fault::CodeNotFitted)
}

// A byte of external data.
pub(crate) fn read<B: Bus>(bus: &B, address: u16) -> Result<u8, Fault>
    ensures { result ≡ data_of (B.memory bus.now) address }
{
    Ok(bus.read(address)?)
}

pub(crate) fn write<B: Bus>(bus: &mut B, address: u16, byte: u8) -> Result<(), Fault>
    ensures { (result, B.memory bus.new) ≡ kept (B.memory bus.old) (write_data_of (B.memory bus.old) address byte) }
{
    Ok(bus.write(address, byte)?)
}

// The address of a byte of external data: DPTR, or R0 or R1 in page 0.
pub(crate) fn address(registers: &Registers, external: External) -> u16
    ensures { result ≡ address_of registers.now external }
{
    match external {
        External::Pointer => registers.dptr(),
        External::Register(n) => u16::from(registers.pointer(n)),
    }
}
