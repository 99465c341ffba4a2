// What an instruction names: the byte that it writes, the byte that it only reads, and so whether a poll follows it.
// A, the carry, SP, DPTR and PC, which an instruction uses without naming an address, do not count, unless A stands where any byte may.
ghost use Rattle.std.specs.Prelude.{◌≡◌};
ghost use Rattle.instructions.specs.Operands.{named_of, nothing, reads, takes, writes, moves, of_arithmetic, of_logical, of_transfer, of_boolean, of_control, operands_of, is_ie_or_ip, has_ie_or_ip, is_reti_of, polls_of};

use crate::{Arithmetic, Boolean, Control, Instruction, Logical, Operand, Source, Transfer};

const IE: u8 = 0xa8;

const IP: u8 = 0xb8;

// The byte that is written, and the byte that is only read: as an operand, or as the place that the operand names.
// What has a target always writes it.
#[derive(Clone, Copy)]
pub struct Operands<T> {
    pub target: Option<T>,
    pub source: Option<T>,
}

impl Operands<Operand> {
    fn nothing() -> Operands<Operand>
        ensures { result ≡ nothing }
    {
        Operands {
            target: None,
            source: None,
        }
    }

    fn reads(operand: Operand) -> Operands<Operand>
        ensures { result ≡ reads operand }
    {
        Operands {
            source: Some(operand),
            ..Operands::nothing()
        }
    }

    fn takes(source: Source) -> Operands<Operand>
        ensures { result ≡ takes source }
    {
        Operands {
            source: source.named(),
            ..Operands::nothing()
        }
    }

    fn writes(operand: Operand) -> Operands<Operand>
        ensures { result ≡ writes operand }
    {
        Operands {
            target: Some(operand),
            ..Operands::nothing()
        }
    }

    fn moves(target: Operand, source: Source) -> Operands<Operand>
        ensures { result ≡ moves target source }
    {
        Operands {
            target: Some(target),
            source: source.named(),
        }
    }

    // Whether one of them is IE or IP, or a bit of these.
    pub fn has_ie_or_ip(self) -> bool
        ensures { result ≡ has_ie_or_ip self }
    {
        is_ie_or_ip(self.target) || is_ie_or_ip(self.source)
    }
}

fn is_ie_or_ip(operand: Option<Operand>) -> bool
    ensures { result ≡ is_ie_or_ip operand }
{
    match operand {
        Some(Operand::Direct(address)) => matches!(address, IE | IP),
        Some(Operand::Bit(bit)) => matches!(bit - bit % 8, IE | IP),
        _ => false,
    }
}

impl Source {
    // The byte that it names, if it is not a constant.
    pub fn named(self) -> Option<Operand>
        ensures { result ≡ named_of self }
    {
        match self {
            Source::Named(operand) => Some(operand),
            Source::Immediate(_) => None,
        }
    }
}

impl Instruction {
    // The bytes that it names.
    pub fn operands(self) -> Operands<Operand>
        ensures { result ≡ operands_of self }
    {
        match self {
            Instruction::Arithmetic(i) => of_arithmetic(i),
            Instruction::Logical(i) => of_logical(i),
            Instruction::Transfer(i) => of_transfer(i),
            Instruction::Boolean(i) => of_boolean(i),
            Instruction::Control(i) => of_control(i),
        }
    }

    pub fn is_reti(self) -> bool
        ensures { result ≡ is_reti_of self }
    {
        matches!(self, Instruction::Control(Control::Reti))
    }

    // Whether its last cycle polls: not after RETI, nor with IE or IP as an operand.
    pub fn polls(self) -> bool
        ensures { result ≡ polls_of self }
    {
        !self.is_reti() && !self.operands().has_ie_or_ip()
    }
}

fn of_arithmetic(i: Arithmetic) -> Operands<Operand>
    ensures { result ≡ of_arithmetic i }
{
    match i {
        Arithmetic::Add(source) | Arithmetic::Addc(source) | Arithmetic::Subb(source) =>
            Operands::takes(source),
        Arithmetic::Inc(target) | Arithmetic::Dec(target) => Operands::writes(target),
        _ => Operands::nothing(),
    }
}

fn of_logical(i: Logical) -> Operands<Operand>
    ensures { result ≡ of_logical i }
{
    match i {
        Logical::Anl { target, source }
        | Logical::Orl { target, source }
        | Logical::Xrl { target, source } => { Operands::moves(target, source) }
        _ => Operands::nothing(),
    }
}

fn of_transfer(i: Transfer) -> Operands<Operand>
    ensures { result ≡ of_transfer i }
{
    match i {
        Transfer::Mov { target, source } => Operands::moves(target, source),
        Transfer::Push(address) => Operands::reads(Operand::Direct(address)),
        Transfer::Pop(address) => Operands::writes(Operand::Direct(address)),
        Transfer::Xch(target) => Operands::writes(target),
        Transfer::Xchd(register) => Operands::writes(Operand::Indirect(register)),
        _ => Operands::nothing(),
    }
}

fn of_boolean(i: Boolean) -> Operands<Operand>
    ensures { result ≡ of_boolean i }
{
    match i {
        Boolean::Clr(bit) | Boolean::Setb(bit) | Boolean::Cpl(bit) => Operands::writes(Operand::Bit(
            bit,
        )),
        Boolean::MovBit(bit) | Boolean::Jbc { bit, .. } => Operands::writes(Operand::Bit(bit)),
        Boolean::AnlC(bit) | Boolean::AnlCNot(bit) => Operands::reads(Operand::Bit(bit)),
        Boolean::OrlC(bit) | Boolean::OrlCNot(bit) => Operands::reads(Operand::Bit(bit)),
        Boolean::MovC(bit) => Operands::reads(Operand::Bit(bit)),
        Boolean::Jb { bit, .. } | Boolean::Jnb { bit, .. } => Operands::reads(Operand::Bit(bit)),
        _ => Operands::nothing(),
    }
}

fn of_control(i: Control) -> Operands<Operand>
    ensures { result ≡ of_control i }
{
    match i {
        Control::Cjne {
            right: Source::Named(operand),
            ..
        } => Operands::reads(operand),
        Control::Cjne { left, .. } => Operands::reads(left),
        Control::Djnz { target, .. } => Operands::writes(target),
        _ => Operands::nothing(),
    }
}
