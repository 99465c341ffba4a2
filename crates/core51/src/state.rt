// What the chip holds, by subject.

// The registers of the processor, the latches of the four ports, and the internal RAM.
#[derive(Drop)]
pub struct Registers {
    pub a: u8,
    pub b: u8,
    pub psw: u8,
    pub sp: u8,
    pub dpl: u8,
    pub dph: u8,
    pub latches: [u8; 4],
    pub pc: u16,
    pub ram: [u8; 128],
}

// One timer: TL and TH.
#[derive(Clone, Copy)]
pub struct Timer {
    pub low: u8,
    pub high: u8,
}

// Both timers, TCON and TMOD, and the pins of port 3 in the cycle before.
#[derive(Drop)]
pub struct Timers {
    pub table: [Timer; 2],
    pub tcon: u8,
    pub tmod: u8,
    pub pins: u8,
}

// Which interrupt requests are enabled, and which have the high level.
#[derive(Drop)]
pub struct Control {
    pub ie: u8,
    pub ip: u8,
}

// The serial channel does not run: two plain registers.
#[derive(Drop)]
pub struct Serial {
    pub scon: u8,
    pub sbuf: u8,
}

// All that an instruction can read or change.
#[derive(Drop)]
pub struct Chip {
    pub registers: Registers,
    pub timers: Timers,
    pub control: Control,
    pub serial: Serial,
}
