// Decoding by the sixteen rows of the opcode map; a row goes by the low digit of the opcode.
// In columns 4 to F of most rows the low digit says the operand: A or a constant, a direct byte, @R0 and @R1, R0 to R7.
ghost use Rattle.std.specs.Prelude.{◌≡◌};
ghost use Rattle.arithmetic.specs.Addresses.{word_of};
ghost use Rattle.instructions.specs.Decode.{operand_of, source_of, logical_operands, decode_of, row_0, row_1, row_2, row_3, row_4, row_5, row_6, row_7, row_8, row_9, row_a, row_b, row_c, row_d, row_e, row_f};

use crate::{
    Arithmetic, Boolean, Control, External, Instruction, Logical, Operand, Source, Transfer,
};
use arithmetic::addresses::word;

// The low digit of an opcode, and the two bytes after it.
#[derive(Clone, Copy)]
struct Encoding {
    low: u8,
    first: u8,
    second: u8,
}

// The instruction of an opcode and the two bytes after it, of which it takes as many as it needs; none at A5H.
#[tactic(auto, unfolding(crate::specs::Decode::decode_of))]
pub fn decode(opcode: u8, first: u8, second: u8) -> Option<Instruction>
    ensures { result ≡ decode_of opcode first second }
{
    let code = Encoding {
        low: opcode % 16,
        first,
        second,
    };
    // A match and no table of functions: it names each row beside its digit, which a table would not.
    match opcode / 16 {
        0 => Some(code.row_0()),
        1 => Some(code.row_1()),
        2 => Some(code.row_2()),
        3 => Some(code.row_3()),
        4 => Some(code.row_4()),
        5 => Some(code.row_5()),
        6 => Some(code.row_6()),
        7 => Some(code.row_7()),
        8 => Some(code.row_8()),
        9 => Some(code.row_9()),
        10 => code.row_a(),
        11 => Some(code.row_b()),
        12 => Some(code.row_c()),
        13 => Some(code.row_d()),
        14 => Some(code.row_e()),
        15 => Some(code.row_f()),
        _ => None,
    }
}

impl Encoding {
    fn operand(self) -> Operand
        ensures { result ≡ operand_of self.low self.first }
    {
        match self.low {
            4 => Operand::Accumulator,
            5 => Operand::Direct(self.first),
            6..=7 => Operand::Indirect(self.low % 2),
            _ => Operand::Register(self.low % 8),
        }
    }

    fn source(self) -> Source
        ensures { result ≡ source_of self.low self.first }
    {
        match self.low {
            4 => Source::Immediate(self.first),
            _ => Source::Named(self.operand()),
        }
    }

    // Target and source of ORL, ANL and XRL, which stand alike in columns 2 to F of their rows.
    fn logical(self) -> (Operand, Source)
        ensures { result ≡ logical_operands self.low self.first self.second }
    {
        match self.low {
            2 => (
                Operand::Direct(self.first),
                Source::Named(Operand::Accumulator),
            ),
            3 => (Operand::Direct(self.first), Source::Immediate(self.second)),
            _ => (Operand::Accumulator, self.source()),
        }
    }

    fn row_0(self) -> Instruction
        ensures { result ≡ row_0 self.low self.first self.second }
    {
        match self.low {
            0 => Instruction::Control(Control::Nop),
            1 => Instruction::Control(Control::Ajmp(word(0, self.first))),
            2 => Instruction::Control(Control::Ljmp(word(self.first, self.second))),
            3 => Instruction::Logical(Logical::Rr),
            _ => Instruction::Arithmetic(Arithmetic::Inc(self.operand())),
        }
    }

    fn row_1(self) -> Instruction
        ensures { result ≡ row_1 self.low self.first self.second }
    {
        match self.low {
            0 => Instruction::Boolean(Boolean::Jbc {
                bit: self.first,
                offset: self.second,
            }),
            1 => Instruction::Control(Control::Acall(word(0, self.first))),
            2 => Instruction::Control(Control::Lcall(word(self.first, self.second))),
            3 => Instruction::Logical(Logical::Rrc),
            _ => Instruction::Arithmetic(Arithmetic::Dec(self.operand())),
        }
    }

    fn row_2(self) -> Instruction
        ensures { result ≡ row_2 self.low self.first self.second }
    {
        match self.low {
            0 => Instruction::Boolean(Boolean::Jb {
                bit: self.first,
                offset: self.second,
            }),
            1 => Instruction::Control(Control::Ajmp(word(1, self.first))),
            2 => Instruction::Control(Control::Ret),
            3 => Instruction::Logical(Logical::Rl),
            _ => Instruction::Arithmetic(Arithmetic::Add(self.source())),
        }
    }

    fn row_3(self) -> Instruction
        ensures { result ≡ row_3 self.low self.first self.second }
    {
        match self.low {
            0 => Instruction::Boolean(Boolean::Jnb {
                bit: self.first,
                offset: self.second,
            }),
            1 => Instruction::Control(Control::Acall(word(1, self.first))),
            2 => Instruction::Control(Control::Reti),
            3 => Instruction::Logical(Logical::Rlc),
            _ => Instruction::Arithmetic(Arithmetic::Addc(self.source())),
        }
    }

    fn row_4(self) -> Instruction
        ensures { result ≡ row_4 self.low self.first self.second }
    {
        match self.low {
            0 => Instruction::Boolean(Boolean::Jc { offset: self.first }),
            1 => Instruction::Control(Control::Ajmp(word(2, self.first))),
            _ => {
                let (target, source) = self.logical();
                Instruction::Logical(Logical::Orl { target, source })
            }
        }
    }

    fn row_5(self) -> Instruction
        ensures { result ≡ row_5 self.low self.first self.second }
    {
        match self.low {
            0 => Instruction::Boolean(Boolean::Jnc { offset: self.first }),
            1 => Instruction::Control(Control::Acall(word(2, self.first))),
            _ => {
                let (target, source) = self.logical();
                Instruction::Logical(Logical::Anl { target, source })
            }
        }
    }

    fn row_6(self) -> Instruction
        ensures { result ≡ row_6 self.low self.first self.second }
    {
        match self.low {
            0 => Instruction::Control(Control::Jz { offset: self.first }),
            1 => Instruction::Control(Control::Ajmp(word(3, self.first))),
            _ => {
                let (target, source) = self.logical();
                Instruction::Logical(Logical::Xrl { target, source })
            }
        }
    }

    fn row_7(self) -> Instruction
        ensures { result ≡ row_7 self.low self.first self.second }
    {
        match self.low {
            0 => Instruction::Control(Control::Jnz { offset: self.first }),
            1 => Instruction::Control(Control::Acall(word(3, self.first))),
            2 => Instruction::Boolean(Boolean::OrlC(self.first)),
            3 => Instruction::Control(Control::JmpDptr),
            5 => Instruction::Transfer(Transfer::Mov {
                target: Operand::Direct(self.first),
                source: Source::Immediate(self.second),
            }),
            _ => Instruction::Transfer(Transfer::Mov {
                target: self.operand(),
                source: Source::Immediate(self.first),
            }),
        }
    }

    fn row_8(self) -> Instruction
        ensures { result ≡ row_8 self.low self.first self.second }
    {
        match self.low {
            0 => Instruction::Control(Control::Sjmp { offset: self.first }),
            1 => Instruction::Control(Control::Ajmp(word(4, self.first))),
            2 => Instruction::Boolean(Boolean::AnlC(self.first)),
            3 => Instruction::Transfer(Transfer::MovcPc),
            4 => Instruction::Arithmetic(Arithmetic::Div),
            5 => Instruction::Transfer(Transfer::Mov {
                target: Operand::Direct(self.second),
                source: Source::Named(Operand::Direct(self.first)),
            }),
            _ => Instruction::Transfer(Transfer::Mov {
                target: Operand::Direct(self.first),
                source: Source::Named(self.operand()),
            }),
        }
    }

    fn row_9(self) -> Instruction
        ensures { result ≡ row_9 self.low self.first self.second }
    {
        match self.low {
            0 => Instruction::Transfer(Transfer::MovDptr(word(self.first, self.second))),
            1 => Instruction::Control(Control::Acall(word(4, self.first))),
            2 => Instruction::Boolean(Boolean::MovBit(self.first)),
            3 => Instruction::Transfer(Transfer::MovcDptr),
            _ => Instruction::Arithmetic(Arithmetic::Subb(self.source())),
        }
    }

    fn row_a(self) -> Option<Instruction>
        ensures { result ≡ row_a self.low self.first }
    {
        match self.low {
            0 => Some(Instruction::Boolean(Boolean::OrlCNot(self.first))),
            1 => Some(Instruction::Control(Control::Ajmp(word(5, self.first)))),
            2 => Some(Instruction::Boolean(Boolean::MovC(self.first))),
            3 => Some(Instruction::Arithmetic(Arithmetic::IncDptr)),
            4 => Some(Instruction::Arithmetic(Arithmetic::Mul)),
            5 => None,
            _ => Some(Instruction::Transfer(Transfer::Mov {
                target: self.operand(),
                source: Source::Named(Operand::Direct(self.first)),
            })),
        }
    }

    fn row_b(self) -> Instruction
        ensures { result ≡ row_b self.low self.first self.second }
    {
        match self.low {
            0 => Instruction::Boolean(Boolean::AnlCNot(self.first)),
            1 => Instruction::Control(Control::Acall(word(5, self.first))),
            2 => Instruction::Boolean(Boolean::Cpl(self.first)),
            3 => Instruction::Boolean(Boolean::CplC),
            4 => Instruction::Control(Control::Cjne {
                left: Operand::Accumulator,
                right: Source::Immediate(self.first),
                offset: self.second,
            }),
            5 => Instruction::Control(Control::Cjne {
                left: Operand::Accumulator,
                right: Source::Named(Operand::Direct(self.first)),
                offset: self.second,
            }),
            _ => Instruction::Control(Control::Cjne {
                left: self.operand(),
                right: Source::Immediate(self.first),
                offset: self.second,
            }),
        }
    }

    fn row_c(self) -> Instruction
        ensures { result ≡ row_c self.low self.first }
    {
        match self.low {
            0 => Instruction::Transfer(Transfer::Push(self.first)),
            1 => Instruction::Control(Control::Ajmp(word(6, self.first))),
            2 => Instruction::Boolean(Boolean::Clr(self.first)),
            3 => Instruction::Boolean(Boolean::ClrC),
            4 => Instruction::Logical(Logical::Swap),
            _ => Instruction::Transfer(Transfer::Xch(self.operand())),
        }
    }

    fn row_d(self) -> Instruction
        ensures { result ≡ row_d self.low self.first self.second }
    {
        match self.low {
            0 => Instruction::Transfer(Transfer::Pop(self.first)),
            1 => Instruction::Control(Control::Acall(word(6, self.first))),
            2 => Instruction::Boolean(Boolean::Setb(self.first)),
            3 => Instruction::Boolean(Boolean::SetbC),
            4 => Instruction::Arithmetic(Arithmetic::Da),
            5 => Instruction::Control(Control::Djnz {
                target: Operand::Direct(self.first),
                offset: self.second,
            }),
            6..=7 => Instruction::Transfer(Transfer::Xchd(self.low % 2)),
            _ => Instruction::Control(Control::Djnz {
                target: Operand::Register(self.low % 8),
                offset: self.first,
            }),
        }
    }

    fn row_e(self) -> Instruction
        ensures { result ≡ row_e self.low self.first }
    {
        match self.low {
            0 => Instruction::Transfer(Transfer::MovxRead(External::Pointer)),
            1 => Instruction::Control(Control::Ajmp(word(7, self.first))),
            2..=3 => Instruction::Transfer(Transfer::MovxRead(External::Register(self.low % 2))),
            4 => Instruction::Logical(Logical::ClrA),
            _ => Instruction::Transfer(Transfer::Mov {
                target: Operand::Accumulator,
                source: Source::Named(self.operand()),
            }),
        }
    }

    fn row_f(self) -> Instruction
        ensures { result ≡ row_f self.low self.first }
    {
        match self.low {
            0 => Instruction::Transfer(Transfer::MovxWrite(External::Pointer)),
            1 => Instruction::Control(Control::Acall(word(7, self.first))),
            2..=3 => Instruction::Transfer(Transfer::MovxWrite(External::Register(self.low % 2))),
            4 => Instruction::Logical(Logical::CplA),
            _ => Instruction::Transfer(Transfer::Mov {
                target: self.operand(),
                source: Source::Named(Operand::Accumulator),
            }),
        }
    }
}
