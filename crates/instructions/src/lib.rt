// The instructions of the 8051: their type, decoding, Intel's tables, and what each instruction names.
#![tactic(auto)]

pub mod decode;
pub mod laws;
pub mod operands;
pub mod tables;

// A byte inside the core that an instruction names. A bit stands for the byte that holds it.
#[derive(Clone, Copy)]
pub enum Operand {
    Accumulator,
    Register(u8),
    Direct(u8),
    Indirect(u8),
    Bit(u8),
}

// What an instruction reads: a named byte, or a constant from the code.
#[derive(Clone, Copy)]
pub enum Source {
    Named(Operand),
    Immediate(u8),
}

// Where a byte of external data stands: at DPTR, or in page 0 at R0 or R1.
#[derive(Clone, Copy)]
pub enum External {
    Pointer,
    Register(u8),
}

#[derive(Clone, Copy)]
pub enum Arithmetic {
    Add(Source),
    Addc(Source),
    Subb(Source),
    Inc(Operand),
    Dec(Operand),
    IncDptr,
    Mul,
    Div,
    Da,
}

#[derive(Clone, Copy)]
pub enum Logical {
    Anl { target: Operand, source: Source },
    Orl { target: Operand, source: Source },
    Xrl { target: Operand, source: Source },
    ClrA,
    CplA,
    Rl,
    Rlc,
    Rr,
    Rrc,
    Swap,
}

#[derive(Clone, Copy)]
pub enum Transfer {
    Mov { target: Operand, source: Source },
    MovDptr(u16),
    MovcDptr,
    MovcPc,
    MovxRead(External),
    MovxWrite(External),
    Push(u8),
    Pop(u8),
    Xch(Operand),
    Xchd(u8),
}

// Boolean variable manipulation: the carry, and bits by their addresses.
#[derive(Clone, Copy)]
pub enum Boolean {
    ClrC,
    Clr(u8),
    SetbC,
    Setb(u8),
    CplC,
    Cpl(u8),
    AnlC(u8),
    AnlCNot(u8),
    OrlC(u8),
    OrlCNot(u8),
    MovC(u8),
    MovBit(u8),
    Jc { offset: u8 },
    Jnc { offset: u8 },
    Jb { bit: u8, offset: u8 },
    Jnb { bit: u8, offset: u8 },
    Jbc { bit: u8, offset: u8 },
}

// Program and machine control. ACALL and AJMP have the eleven low bits of their target.
#[derive(Clone, Copy)]
pub enum Control {
    Acall(u16),
    Lcall(u16),
    Ret,
    Reti,
    Ajmp(u16),
    Ljmp(u16),
    Sjmp {
        offset: u8,
    },
    JmpDptr,
    Jz {
        offset: u8,
    },
    Jnz {
        offset: u8,
    },
    Cjne {
        left: Operand,
        right: Source,
        offset: u8,
    },
    Djnz {
        target: Operand,
        offset: u8,
    },
    Nop,
}

#[derive(Clone, Copy)]
pub enum Instruction {
    Arithmetic(Arithmetic),
    Logical(Logical),
    Transfer(Transfer),
    Boolean(Boolean),
    Control(Control),
}
