ghost use Rattle.std.specs.Prelude.{◌≡◌};
ghost use Rattle.outcome.specs.Outcome.{kept};
ghost use Rattle.buses.specs.Memory.{Memory, Lawful, SameFitting, FittingStands, answer, write_of, exchange_of};

// Why an access is refused. It rises by `?` through the layers: a rule of the project, a form that was asked for (docs/DECISIONS.md).
#[derive(Clone, Copy, PartialEq, Eq, Debug)]
pub enum BusFault {
    NotFitted,
    Fenced,
}

// Whatever shows these contracts is a bus.
pub trait Bus {
    // what stands at each address
    ghost memory: { Self → Memory };

    // a shared address has a code byte and a data byte, and both are equal
    ghost lawful: { (bus : Self) → Lawful (memory bus) };

    // The code byte at an address.
    fn code(&self, address: u16) -> Result<u8, BusFault>
        ensures { result ≡ answer ((memory self.now).code address) };

    // The data byte at an address.
    fn read(&self, address: u16) -> Result<u8, BusFault>
        ensures { result ≡ answer ((memory self.now).store address) };

    // Writes the data byte at an address.
    fn write(&mut self, address: u16, byte: u8) -> Result<(), BusFault>
        ensures { (result, memory self.new) ≡ kept (memory self.old) (write_of (memory self.old) address byte) };
}

// Writes the data byte at an address and answers the one that was there.
#[tactic(auto, using(crate::proofs::Fitting::fitting_stands))]
pub fn exchange<B: Bus>(bus: &mut B, address: u16, byte: u8) -> Result<u8, BusFault>
    ensures exchanged { (result, B.memory bus.new) ≡ kept (B.memory bus.old) (exchange_of (B.memory bus.old) address byte) }
    ensures stands { FittingStands }
    ensures fitting { SameFitting (B.memory bus.old) (B.memory bus.new) }
{
    let before = bus.read(address)?;
    bus.write(address, byte)?;
    Ok(before)
}
