ghost use Rattle.std.specs.Prelude.{◌≡◌, ◌/◌, ◌%◌, ◌≤◌, [], length};
ghost use Rattle.std.specs.List.{flat_map};
ghost use Rattle.outcome.specs.Outcome.{kept};
ghost use Rattle.logs.specs.Log.{held, Extends};
ghost use Rattle.record_files.specs.Text.{digit_of, hex_byte, record_line, stop_line, text_of, printed, file_text, pins_text};

use crate::reader::take_up;
use crate::writer::image_of;
use logs::log::Log;
use records::pins::PinRecord;
use records::record::Record;
use records::refusals::Refusal;

// The bytes of a file of pin records that count, and the records that they can be.
pub const PINS_BYTES: usize = 4096;

pub const PINS: usize = 512;

// The length of the last line.
const STOP_LINE: usize = 8;

// The capital digit of base sixteen for the low four bits. Digits are written by hand: a rule of the project, text in lent memory and no
// heap. The crate hex allocates, and what `write!` writes of a number has no contract.
fn digit(n: u8) -> u8
    ensures { result ≡ digit_of (n % 16) }
{
    let n = n % 16;
    if n < 10 { b'0' + n } else { b'A' - 10 + n }
}

// Writes two digits for each byte.
fn write_hex(bytes: &[u8], text: &mut Log<'_, u8>)
    ensures { Extends text.old text.new (flat_map hex_byte bytes.now) }
{
    for b in bytes {
        let _ = text.extend(&[digit(*b / 16), digit(*b)]);
    }
}

// Writes the line of one record.
fn write_line<R: Record>(record: &R, text: &mut Log<'_, u8>)
    ensures { Extends text.old text.new (record_line R.Record.image «record».now) }
{
    let image = image_of(record);
    write_hex(&image[0..R::WIDTH], text);
    let _ = text.extend(&[b'\n']);
}

// Writes the last line. What stopped a run is a plain number: a rule of the project, as run answers it.
fn write_stop(stop: u8, text: &mut Log<'_, u8>)
    ensures { Extends text.old text.new (stop_line stop) }
{
    let tens = b'0' + stop / 10 % 10;
    let ones = b'0' + stop % 10;
    let _ = text.extend(&[b's', b't', b'o', b'p', b' ', tens, ones, b'\n']);
}

// Writes a line for each record of a log and a last line to the front of a memory, and answers the length of the text.
pub fn write_text<R: Record>(log: &Log<'_, R>, stop: u8, out: &mut [u8]) -> Result<usize, Refusal>
    ensures { (result, out.new) ≡ kept out.old (printed (text_of R.Record.image (held log.now).made stop) out.old) }
{
    if out.len() < STOP_LINE {
        return Err(Refusal::TooLittleRoom);
    }
    if (out.len() - STOP_LINE) / (2 * R::WIDTH + 1) < log.len() {
        return Err(Refusal::TooLittleRoom);
    }
    let mut text = Log::new(out);
    for record in log.records() {
        write_line(record, &mut text);
    }
    write_stop(stop, &mut text);
    Ok(text.len())
}

// Writes the text of a file's pin records, which are taken up into an empty log with room for them.
fn write_file_text(
    file: &[u8],
    pins: &mut Log<'_, PinRecord>,
    out: &mut [u8],
) -> Result<usize, Refusal>
    requires { ((held pins.old).made ≡ []) × (length file.now / 8 ≤ length (held pins.old).free) }
    ensures { (result, out.new) ≡ kept out.old (printed (file_text file.now) out.old) }
{
    match take_up(file, pins) {
        Ok(()) => write_text(pins, 0, out),
        Err(refusal) => write_text(pins, u8::from(refusal), out),
    }
}

// Writes the text of a file of pin records, of which only the first bytes count.
pub fn write_pins_text(file: &[u8], out: &mut [u8]) -> Result<usize, Refusal>
    ensures { (result, out.new) ≡ kept out.old (printed (pins_text file.now) out.old) }
{
    let mut places = [PinRecord::BLANK; PINS];
    let mut pins = Log::new(&mut places);
    let n = file.len().min(PINS_BYTES);
    write_file_text(&file[0..n], &mut pins, out)
}
