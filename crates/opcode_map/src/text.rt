// Instructions in the assembler's words.
use instructions::operands::Operands;
use instructions::{
    Arithmetic, Boolean, Control, External, Instruction, Logical, Operand, Source, Transfer,
};
use std::fmt;

// A value, printed in the assembler's words.
#[derive(Clone, Copy)]
pub struct Assembler<T>(pub T);

impl fmt::Display for Assembler<Operand> {
    fn fmt<W: fmt::Write>(&self, f: &mut fmt::Formatter<W>) -> fmt::Result {
        match self.0 {
            Operand::Accumulator => f.write_str("A"),
            Operand::Register(n) => write!(f, "R{n}"),
            Operand::Direct(a) => write!(f, "{a:02X}H"),
            Operand::Indirect(n) => write!(f, "@R{n}"),
            Operand::Bit(b) => write!(f, "{b:02X}H"),
        }
    }
}

impl fmt::Display for Assembler<Source> {
    fn fmt<W: fmt::Write>(&self, f: &mut fmt::Formatter<W>) -> fmt::Result {
        match self.0 {
            Source::Named(o) => write!(f, "{}", Assembler(o)),
            Source::Immediate(n) => write!(f, "#{n:02X}H"),
        }
    }
}

impl fmt::Display for Assembler<External> {
    fn fmt<W: fmt::Write>(&self, f: &mut fmt::Formatter<W>) -> fmt::Result {
        match self.0 {
            External::Pointer => f.write_str("@DPTR"),
            External::Register(n) => write!(f, "@R{n}"),
        }
    }
}

fn one<W: fmt::Write>(f: &mut fmt::Formatter<W>, name: &str, target: Operand) -> fmt::Result {
    write!(f, "{name} {}", Assembler(target))
}

fn two<W: fmt::Write>(
    f: &mut fmt::Formatter<W>,
    name: &str,
    target: Operand,
    from: Source,
) -> fmt::Result {
    write!(f, "{name} {},{}", Assembler(target), Assembler(from))
}

impl fmt::Display for Assembler<Arithmetic> {
    fn fmt<W: fmt::Write>(&self, f: &mut fmt::Formatter<W>) -> fmt::Result {
        match self.0 {
            Arithmetic::Add(s) => two(f, "ADD", Operand::Accumulator, s),
            Arithmetic::Addc(s) => two(f, "ADDC", Operand::Accumulator, s),
            Arithmetic::Subb(s) => two(f, "SUBB", Operand::Accumulator, s),
            Arithmetic::Inc(t) => one(f, "INC", t),
            Arithmetic::Dec(t) => one(f, "DEC", t),
            Arithmetic::IncDptr => f.write_str("INC DPTR"),
            Arithmetic::Mul => f.write_str("MUL AB"),
            Arithmetic::Div => f.write_str("DIV AB"),
            Arithmetic::Da => f.write_str("DA A"),
        }
    }
}

impl fmt::Display for Assembler<Logical> {
    fn fmt<W: fmt::Write>(&self, f: &mut fmt::Formatter<W>) -> fmt::Result {
        match self.0 {
            Logical::Anl { target, source } => two(f, "ANL", target, source),
            Logical::Orl { target, source } => two(f, "ORL", target, source),
            Logical::Xrl { target, source } => two(f, "XRL", target, source),
            Logical::ClrA => f.write_str("CLR A"),
            Logical::CplA => f.write_str("CPL A"),
            Logical::Rl => f.write_str("RL A"),
            Logical::Rlc => f.write_str("RLC A"),
            Logical::Rr => f.write_str("RR A"),
            Logical::Rrc => f.write_str("RRC A"),
            Logical::Swap => f.write_str("SWAP A"),
        }
    }
}

impl fmt::Display for Assembler<Transfer> {
    fn fmt<W: fmt::Write>(&self, f: &mut fmt::Formatter<W>) -> fmt::Result {
        match self.0 {
            Transfer::Mov { target, source } => two(f, "MOV", target, source),
            Transfer::MovDptr(n) => write!(f, "MOV DPTR,#{n:04X}H"),
            Transfer::MovcDptr => f.write_str("MOVC A,@A+DPTR"),
            Transfer::MovcPc => f.write_str("MOVC A,@A+PC"),
            Transfer::MovxRead(at) => write!(f, "MOVX A,{}", Assembler(at)),
            Transfer::MovxWrite(at) => write!(f, "MOVX {},A", Assembler(at)),
            Transfer::Push(a) => one(f, "PUSH", Operand::Direct(a)),
            Transfer::Pop(a) => one(f, "POP", Operand::Direct(a)),
            Transfer::Xch(t) => two(f, "XCH", Operand::Accumulator, Source::Named(t)),
            Transfer::Xchd(n) => {
                let digit = Source::Named(Operand::Indirect(n));
                two(f, "XCHD", Operand::Accumulator, digit)
            }
        }
    }
}

impl fmt::Display for Assembler<Boolean> {
    fn fmt<W: fmt::Write>(&self, f: &mut fmt::Formatter<W>) -> fmt::Result {
        match self.0 {
            Boolean::ClrC => f.write_str("CLR C"),
            Boolean::Clr(bit) => write!(f, "CLR {bit:02X}H"),
            Boolean::SetbC => f.write_str("SETB C"),
            Boolean::Setb(bit) => write!(f, "SETB {bit:02X}H"),
            Boolean::CplC => f.write_str("CPL C"),
            Boolean::Cpl(bit) => write!(f, "CPL {bit:02X}H"),
            Boolean::AnlC(bit) => write!(f, "ANL C,{bit:02X}H"),
            Boolean::AnlCNot(bit) => write!(f, "ANL C,/{bit:02X}H"),
            Boolean::OrlC(bit) => write!(f, "ORL C,{bit:02X}H"),
            Boolean::OrlCNot(bit) => write!(f, "ORL C,/{bit:02X}H"),
            Boolean::MovC(bit) => write!(f, "MOV C,{bit:02X}H"),
            Boolean::MovBit(bit) => write!(f, "MOV {bit:02X}H,C"),
            Boolean::Jc { offset } => write!(f, "JC {offset:02X}H"),
            Boolean::Jnc { offset } => write!(f, "JNC {offset:02X}H"),
            Boolean::Jb { bit, offset } => write!(f, "JB {bit:02X}H,{offset:02X}H"),
            Boolean::Jnb { bit, offset } => write!(f, "JNB {bit:02X}H,{offset:02X}H"),
            Boolean::Jbc { bit, offset } => write!(f, "JBC {bit:02X}H,{offset:02X}H"),
        }
    }
}

impl fmt::Display for Assembler<Control> {
    fn fmt<W: fmt::Write>(&self, f: &mut fmt::Formatter<W>) -> fmt::Result {
        match self.0 {
            Control::Acall(n) => write!(f, "ACALL {n:03X}H"),
            Control::Lcall(n) => write!(f, "LCALL {n:04X}H"),
            Control::Ret => f.write_str("RET"),
            Control::Reti => f.write_str("RETI"),
            Control::Ajmp(n) => write!(f, "AJMP {n:03X}H"),
            Control::Ljmp(n) => write!(f, "LJMP {n:04X}H"),
            Control::Sjmp { offset } => write!(f, "SJMP {offset:02X}H"),
            Control::JmpDptr => f.write_str("JMP @A+DPTR"),
            Control::Jz { offset } => write!(f, "JZ {offset:02X}H"),
            Control::Jnz { offset } => write!(f, "JNZ {offset:02X}H"),
            Control::Cjne {
                left,
                right,
                offset,
            } => {
                two(f, "CJNE", left, right)?;
                write!(f, ",{offset:02X}H")
            }
            Control::Djnz { target, offset } => {
                one(f, "DJNZ", target)?;
                write!(f, ",{offset:02X}H")
            }
            Control::Nop => f.write_str("NOP"),
        }
    }
}

impl fmt::Display for Assembler<Instruction> {
    fn fmt<W: fmt::Write>(&self, f: &mut fmt::Formatter<W>) -> fmt::Result {
        match self.0 {
            Instruction::Arithmetic(i) => write!(f, "{}", Assembler(i)),
            Instruction::Logical(i) => write!(f, "{}", Assembler(i)),
            Instruction::Transfer(i) => write!(f, "{}", Assembler(i)),
            Instruction::Boolean(i) => write!(f, "{}", Assembler(i)),
            Instruction::Control(i) => write!(f, "{}", Assembler(i)),
        }
    }
}

// An operand, A apart, after a word.
fn named<W: fmt::Write>(
    f: &mut fmt::Formatter<W>,
    word: &str,
    operand: Option<Operand>,
) -> fmt::Result {
    match operand {
        None | Some(Operand::Accumulator) => Ok(()),
        Some(o) => one(f, word, o),
    }
}

impl fmt::Display for Assembler<Operands<Operand>> {
    fn fmt<W: fmt::Write>(&self, f: &mut fmt::Formatter<W>) -> fmt::Result {
        named(f, "; writes", self.0.target)?;
        named(f, "; reads", self.0.source)
    }
}
