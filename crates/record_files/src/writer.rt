ghost use Rattle.std.specs.Prelude.{◌≡◌, ◌/◌, take, Ok};
ghost use Rattle.outcome.specs.Outcome.{kept};
ghost use Rattle.records.specs.Bytes.{stored};
ghost use Rattle.record_files.specs.File.{file_bytes};
ghost use Rattle.logs.specs.Log.{held, Extends};

use logs::log::Log;
use records::record::Record;
use records::refusals::Refusal;

// The bytes of a record, in front of zeros. Sixteen, of which WIDTH count: a rule of the project, no heap, and no array has a length that
// a trait states.
pub(crate) fn image_of<R: Record>(record: &R) -> [u8; 16]
    ensures { take R.Record.WIDTH result ≡ R.Record.image «record».now }
{
    let mut bytes = [0; 16];
    let _ = record.put(&mut bytes);
    bytes
}

// Writes a record's bytes after those that are there.
fn write_image<R: Record>(record: &R, bytes: &mut Log<'_, u8>)
    ensures { Extends bytes.old bytes.new (R.Record.image «record».now) }
{
    let image = image_of(record);
    let _ = bytes.extend(&image[0..R::WIDTH]);
}

// Writes a log's records to the front of a memory.
pub fn write_records<R: Record>(log: &Log<'_, R>, out: &mut [u8]) -> Result<(), Refusal>
    ensures { (result, out.new) ≡ kept out.old (stored (file_bytes R.Record.image (held log.now).made) out.old) }
{
    if out.len() / R::WIDTH < log.len() {
        return Err(Refusal::TooLittleRoom);
    }
    let mut bytes = Log::new(out);
    for record in log.records() {
        write_image(record, &mut bytes);
    }
    Ok(())
}
