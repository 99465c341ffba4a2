// The three programs. Each begins at 0030H, counts down its loops, and ends at 0100H in a jump to itself.
// The size of the code memory.
pub const CODE_BYTES: usize = 512;

// Where each program ends.
pub const END: u16 = 0x0100;

const START: usize = 0x0030;

const TIMER_0: usize = 0x000b;

const TIMER_1: usize = 0x001b;

#[derive(Clone, Copy)]
pub enum Program {
    Arithmetic,
    Movx,
    Interrupts,
}

// Sums, differences, products, quotients, decimal adjustment and rotates; P1 is written every 256 turns.
const ARITHMETIC: [u8; 47] = [
    0x7f, 0x08, //          mov   r7, #8
    0x7e, 0x00, //          mov   r6, #0
    0x7d, 0x00, //          mov   r5, #0
    0xe8, // turn:          mov   a, r0
    0x24, 0x27, //          add   a, #27h
    0x39, //                addc  a, r1
    0x95, 0x40, //          subb  a, 40h
    0xf8, //                mov   r0, a
    0x89, 0xf0, //          mov   b, r1
    0xa4, //                mul   ab
    0xf9, //                mov   r1, a
    0x75, 0xf0, 0x07, //    mov   b, #7
    0x84, //                div   ab
    0x2a, //                add   a, r2
    0xd4, //                da    a
    0xfa, //                mov   r2, a
    0x23, //                rl    a
    0x13, //                rrc   a
    0x33, //                rlc   a
    0x03, //                rr    a
    0xf5, 0x40, //          mov   40h, a
    0x05, 0x41, //          inc   41h
    0x1b, //                dec   r3
    0x6c, //                xrl   a, r4
    0xfc, //                mov   r4, a
    0xdd, 0xe1, //          djnz  r5, turn
    0x85, 0x41, 0x90, //    mov   p1, 41h
    0xde, 0xda, //          djnz  r6, 0034h
    0xdf, 0xd6, //          djnz  r7, 0032h
    0x02, 0x01, 0x00, //    ljmp  0100h
];

// Bytes of external data by DPTR and by R0, read and written; P1 is written every 256 turns.
const MOVX: [u8; 31] = [
    0x7f, 0x14, //          mov   r7, #20
    0x7e, 0x00, //          mov   r6, #0
    0x90, 0x01, 0x00, //    mov   dptr, #0100h
    0x78, 0x10, //          mov   r0, #10h
    0x7d, 0x00, //          mov   r5, #0
    0xe0, // turn:          movx  a, @dptr
    0x2d, //                add   a, r5
    0xf0, //                movx  @dptr, a
    0xa3, //                inc   dptr
    0xe2, //                movx  a, @r0
    0x6c, //                xrl   a, r4
    0xf2, //                movx  @r0, a
    0x08, //                inc   r0
    0xfc, //                mov   r4, a
    0xdd, 0xf5, //          djnz  r5, turn
    0xf5, 0x90, //          mov   p1, a
    0xde, 0xea, //          djnz  r6, 0034h
    0xdf, 0xe6, //          djnz  r7, 0032h
    0x02, 0x01, 0x00, //    ljmp  0100h
];

// Timer 0 in mode 2 overflows every 64 cycles, timer 1 in mode 1 some 200 cycles after its service.
const INTERRUPTS: [u8; 50] = [
    0x75, 0x89, 0x12, //    mov   tmod, #12h
    0x75, 0x8c, 0xc0, //    mov   th0, #0c0h
    0x75, 0x8a, 0xc0, //    mov   tl0, #0c0h
    0x75, 0x8d, 0xff, //    mov   th1, #0ffh
    0x75, 0x8b, 0x38, //    mov   tl1, #38h
    0x75, 0xb8, 0x08, //    mov   ip, #08h
    0x75, 0xa8, 0x8a, //    mov   ie, #8ah
    0x75, 0x88, 0x50, //    mov   tcon, #50h
    0x7f, 0x1e, //          mov   r7, #30
    0x7e, 0x00, //          mov   r6, #0
    0x7d, 0x00, //          mov   r5, #0
    0x04, // turn:          inc   a
    0xf5, 0x32, //          mov   32h, a
    0x25, 0x30, //          add   a, 30h
    0x65, 0x31, //          xrl   a, 31h
    0xfc, //                mov   r4, a
    0xdd, 0xf6, //          djnz  r5, turn
    0xde, 0xf2, //          djnz  r6, 004ch
    0xdf, 0xee, //          djnz  r7, 004ah
    0x75, 0xa8, 0x00, //    mov   ie, #00h
    0x02, 0x01, 0x00, //    ljmp  0100h
];

const SERVICE_0: [u8; 3] = [
    0x05, 0x30, //          inc   30h
    0x32, //                reti
];

const SERVICE_1: [u8; 12] = [
    0x05, 0x31, //          inc   31h
    0x85, 0x31, 0x90, //    mov   p1, 31h
    0x75, 0x8d, 0xff, //    mov   th1, #0ffh
    0x75, 0x8b, 0x38, //    mov   tl1, #38h
    0x32, //                reti
];

const RESET: [u8; 3] = [
    0x02, 0x00, 0x30, //    ljmp  0030h
];

const ENDING: [u8; 2] = [
    0x80, 0xfe, //          sjmp  0100h
];

// Copies bytes to an address of the code memory.
fn place(code: &mut [u8; CODE_BYTES], at: usize, bytes: &[u8]) {
    for (to, byte) in code.iter_mut().skip(at).zip(bytes) {
        *to = *byte;
    }
}

impl Program {
    pub fn name(self) -> &'static str {
        match self {
            Program::Arithmetic => "arithmetic",
            Program::Movx => "movx",
            Program::Interrupts => "interrupts",
        }
    }

    // The bytes of the code memory.
    pub fn code(self) -> [u8; CODE_BYTES] {
        let mut code = [0; CODE_BYTES];
        place(&mut code, 0, &RESET);
        place(&mut code, END as usize, &ENDING);
        match self {
            Program::Arithmetic => place(&mut code, START, &ARITHMETIC),
            Program::Movx => place(&mut code, START, &MOVX),
            Program::Interrupts => {
                place(&mut code, TIMER_0, &SERVICE_0);
                place(&mut code, TIMER_1, &SERVICE_1);
                place(&mut code, START, &INTERRUPTS);
            }
        }
        code
    }
}
