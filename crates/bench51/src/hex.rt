// Intel HEX: lines of a length, an address, a type, bytes, and a byte that makes their sum 0 modulo 256.
use crate::programs::{CODE_BYTES, Program};

// The bytes of one line.
const LINE: usize = 16;

// One line: the bytes at an address.
fn print_line(rt: &HostRuntime, address: u16, bytes: &[u8]) -> anyhow::Result<()> {
    let [high, low] = address.to_be_bytes();
    let head = [LINE as u8, high, low, 0];
    let mut sum = 0u8;
    print!(rt; ":")?;
    for byte in head.iter().chain(bytes) {
        sum = sum.wrapping_add(*byte);
        print!(rt; "{byte:02X}")?;
    }
    let check = sum.wrapping_neg();
    println!(rt; "{check:02X}")?;
    Ok(())
}

// The code memory of a program.
pub fn print_hex(rt: &HostRuntime, program: Program) -> anyhow::Result<()> {
    let code = program.code();
    for (address, bytes) in (0..CODE_BYTES as u16).step_by(LINE).zip(code.chunks(LINE)) {
        print_line(rt, address, bytes)?;
    }
    println!(rt; ":00000001FF")?;
    Ok(())
}
