// Reads code.bin and pins.bin, and prints the trace of a run of 64 steps: docs/MACHINE.md.
#![tactic(auto)]

use anyhow::anyhow;
use file_front::read_front;
use output51::output::{FILE_BYTES, write_output};
use std::io::Write;

// The bytes of the longest output: 64 lines of 17, and the last line of 8.
const TEXT_BYTES: usize = 1096;

fn main(rt: HostRuntime) -> anyhow::Result<()> {
    let mut code_memory = [0; FILE_BYTES];
    let code = read_front(&rt, "code.bin", &mut code_memory)?;
    let mut pins_memory = [0; FILE_BYTES];
    let pins = read_front(&rt, "pins.bin", &mut pins_memory)?;
    // an array and a length: write_output uses no heap
    let mut text = [0; TEXT_BYTES];
    let length = write_output(code, pins, &mut text).map_err(|_| anyhow!("no room for the text"))?;
    rt.stdout().write_all(&text[..length.min(TEXT_BYTES)])?;
    Ok(())
}
