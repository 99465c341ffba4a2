// Intel's tables: length and machine cycles of each opcode, the register addresses, the vectors of the interrupt sources.
ghost use Rattle.std.specs.Prelude.{◌≡◌};
ghost use Rattle.instructions.specs.Tables.{entry, length_of, cycles_of, is_register_of, vector_of};

use records::traces::Source;

// Constant tables, as docs/DECISIONS.md rules: by the high and the low digit of the opcode. A5H, which is no instruction, counts as one byte and one cycle.
const LENGTHS: [[u8; 16]; 16] = [
    [1, 2, 3, 1, 1, 2, 1, 1, 1, 1, 1, 1, 1, 1, 1, 1],
    [3, 2, 3, 1, 1, 2, 1, 1, 1, 1, 1, 1, 1, 1, 1, 1],
    [3, 2, 1, 1, 2, 2, 1, 1, 1, 1, 1, 1, 1, 1, 1, 1],
    [3, 2, 1, 1, 2, 2, 1, 1, 1, 1, 1, 1, 1, 1, 1, 1],
    [2, 2, 2, 3, 2, 2, 1, 1, 1, 1, 1, 1, 1, 1, 1, 1],
    [2, 2, 2, 3, 2, 2, 1, 1, 1, 1, 1, 1, 1, 1, 1, 1],
    [2, 2, 2, 3, 2, 2, 1, 1, 1, 1, 1, 1, 1, 1, 1, 1],
    [2, 2, 2, 1, 2, 3, 2, 2, 2, 2, 2, 2, 2, 2, 2, 2],
    [2, 2, 2, 1, 1, 3, 2, 2, 2, 2, 2, 2, 2, 2, 2, 2],
    [3, 2, 2, 1, 2, 2, 1, 1, 1, 1, 1, 1, 1, 1, 1, 1],
    [2, 2, 2, 1, 1, 1, 2, 2, 2, 2, 2, 2, 2, 2, 2, 2],
    [2, 2, 2, 1, 3, 3, 3, 3, 3, 3, 3, 3, 3, 3, 3, 3],
    [2, 2, 2, 1, 1, 2, 1, 1, 1, 1, 1, 1, 1, 1, 1, 1],
    [2, 2, 2, 1, 1, 3, 1, 1, 2, 2, 2, 2, 2, 2, 2, 2],
    [1, 2, 1, 1, 1, 2, 1, 1, 1, 1, 1, 1, 1, 1, 1, 1],
    [1, 2, 1, 1, 1, 2, 1, 1, 1, 1, 1, 1, 1, 1, 1, 1],
];

const CYCLES: [[u8; 16]; 16] = [
    [1, 2, 2, 1, 1, 1, 1, 1, 1, 1, 1, 1, 1, 1, 1, 1],
    [2, 2, 2, 1, 1, 1, 1, 1, 1, 1, 1, 1, 1, 1, 1, 1],
    [2, 2, 2, 1, 1, 1, 1, 1, 1, 1, 1, 1, 1, 1, 1, 1],
    [2, 2, 2, 1, 1, 1, 1, 1, 1, 1, 1, 1, 1, 1, 1, 1],
    [2, 2, 1, 2, 1, 1, 1, 1, 1, 1, 1, 1, 1, 1, 1, 1],
    [2, 2, 1, 2, 1, 1, 1, 1, 1, 1, 1, 1, 1, 1, 1, 1],
    [2, 2, 1, 2, 1, 1, 1, 1, 1, 1, 1, 1, 1, 1, 1, 1],
    [2, 2, 2, 2, 1, 2, 1, 1, 1, 1, 1, 1, 1, 1, 1, 1],
    [2, 2, 2, 2, 4, 2, 2, 2, 2, 2, 2, 2, 2, 2, 2, 2],
    [2, 2, 2, 2, 1, 1, 1, 1, 1, 1, 1, 1, 1, 1, 1, 1],
    [2, 2, 1, 2, 4, 1, 2, 2, 2, 2, 2, 2, 2, 2, 2, 2],
    [2, 2, 1, 1, 2, 2, 2, 2, 2, 2, 2, 2, 2, 2, 2, 2],
    [2, 2, 1, 1, 1, 1, 1, 1, 1, 1, 1, 1, 1, 1, 1, 1],
    [2, 2, 1, 1, 1, 2, 1, 1, 2, 2, 2, 2, 2, 2, 2, 2],
    [2, 2, 2, 2, 1, 1, 1, 1, 1, 1, 1, 1, 1, 1, 1, 1],
    [2, 2, 2, 2, 1, 1, 1, 1, 1, 1, 1, 1, 1, 1, 1, 1],
];

// Where the twenty special function registers stand, as a constant table too: a row to each eight addresses, from 80H on.
const REGISTERS: [[bool; 8]; 16] = [
    [true, true, true, true, false, false, false, false], // 80H: P0, SP, DPL, DPH
    [true, true, true, true, true, true, false, false], // 88H: TCON, TMOD, TL0, TL1, TH0, TH1
    [true, false, false, false, false, false, false, false], // 90H: P1
    [true, true, false, false, false, false, false, false], // 98H: SCON, SBUF
    [true, false, false, false, false, false, false, false], // A0H: P2
    [true, false, false, false, false, false, false, false], // A8H: IE
    [true, false, false, false, false, false, false, false], // B0H: P3
    [true, false, false, false, false, false, false, false], // B8H: IP
    [false, false, false, false, false, false, false, false], // C0H
    [false, false, false, false, false, false, false, false], // C8H
    [true, false, false, false, false, false, false, false], // D0H: PSW
    [false, false, false, false, false, false, false, false], // D8H
    [true, false, false, false, false, false, false, false], // E0H: ACC
    [false, false, false, false, false, false, false, false], // E8H
    [true, false, false, false, false, false, false, false], // F0H: B
    [false, false, false, false, false, false, false, false], // F8H
];

// The vectors by source, a constant table too.
const VECTORS: [u16; 5] = [0x0003, 0x000b, 0x0013, 0x001b, 0x0023];

// The address that the service of an interrupt source begins at.
pub fn vector(source: Source) -> u16
    ensures { result ≡ vector_of source }
{
    VECTORS[source as usize - 1]
}

// What a table has for an opcode.
fn entry(table: &[[u8; 16]; 16], opcode: u8) -> u8
    ensures { result ≡ entry table.now opcode }
{
    table[opcode as usize / 16][opcode as usize % 16]
}

// The bytes of an instruction, by its opcode.
pub fn length(opcode: u8) -> u8
    ensures { result ≡ length_of opcode }
{
    entry(&LENGTHS, opcode)
}

// The machine cycles of an instruction, by its opcode.
pub fn cycles(opcode: u8) -> u8
    ensures { result ≡ cycles_of opcode }
{
    entry(&CYCLES, opcode)
}

// Whether a register stands at a direct address.
pub fn is_register(address: u8) -> bool
    ensures { result ≡ is_register_of address }
{
    address >= 0x80 && REGISTERS[address as usize / 8 % 16][address as usize % 8]
}
