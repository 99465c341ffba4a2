// Why an instruction is refused.
ghost use Rattle.std.specs.Prelude.{◌≡◌};
ghost use Rattle.core51.specs.Faults.{number_of, fault_of};

use buses::BusFault;

#[derive(Clone, Copy, PartialEq, Eq, Debug)]
pub enum Fault {
    // no time is left for a step
    TimeOver = 10,
    // a code byte that the instruction needs is not fitted
    CodeNotFitted = 11,
    // the opcode is no instruction
    NoInstruction = 12,
    // a direct address or a bit above 7FH has no register
    NoRegister = 13,
    // an indirect or stack address is above 7FH
    NoRam = 14,
    // there is no data byte at the address
    DataNotFitted = 15,
    // the data byte at the address cannot be written
    DataFenced = 16,
}

// The number of a refusal.
impl From<Fault> for u8 {
    ghost from_gives = { λ fault n. n ≡ number_of fault };

    fn from(fault: Fault) -> u8 {
        fault as u8
    }
}

// Why an access to external data is refused.
impl From<BusFault> for Fault {
    ghost from_gives = { λ refused fault. fault ≡ fault_of refused };

    fn from(refused: BusFault) -> Fault {
        match refused {
            BusFault::NotFitted => Fault::DataNotFitted,
            BusFault::Fenced => Fault::DataFenced,
        }
    }
}
