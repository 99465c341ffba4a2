// Lists the opcode map: each opcode with its length and machine cycles, the instruction as the assembler writes it, with 12H and 34H
// as the bytes after the opcode, and which of its operands, A apart, it writes or only reads.
#![tactic(auto)]

mod text;

use instructions::decode::decode;
use instructions::tables::{cycles, length};
use std::io;
use text::Assembler;

fn line(rt: &HostRuntime, opcode: u8) -> io::Result<()> {
    let bytes = length(opcode);
    let count = cycles(opcode);
    match decode(opcode, 0x12, 0x34) {
        Some(i) => {
            let words = Assembler(i);
            let named = Assembler(i.operands());
            println!(rt; "{opcode:02X} {bytes} {count} {words}{named}")
        }
        None => println!(rt; "{opcode:02X} - - no instruction"),
    }
}

fn main(rt: HostRuntime) -> io::Result<()> {
    for opcode in 0..=255u8 {
        line(&rt, opcode)?;
    }
    Ok(())
}
