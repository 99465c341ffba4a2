// Reads pins.bin and prints its pin records, and what stopped them: docs/RECORDS.md.
#![tactic(auto)]

use anyhow::anyhow;
use file_front::read_front;
use record_files::text::{PINS_BYTES, write_pins_text};
use std::io::Write;

// The bytes of the longest text: 512 lines of 17, and the last line of 8.
const TEXT_BYTES: usize = 8712;

fn main(rt: HostRuntime) -> anyhow::Result<()> {
    let mut memory = [0; PINS_BYTES];
    let pins = read_front(&rt, "pins.bin", &mut memory)?;
    // an array and a length: write_pins_text uses no heap
    let mut text = [0; TEXT_BYTES];
    let length = write_pins_text(pins, &mut text).map_err(|_| anyhow!("no room for the text"))?;
    rt.stdout().write_all(&text[..length.min(TEXT_BYTES)])?;
    Ok(())
}
