ghost use Rattle.std.specs.Prelude.{◌≡◌, ◌/◌, length, Ok};
ghost use Rattle.outcome.specs.Outcome.{kept, then};
ghost use Rattle.record_files.specs.File.{pieces, all_taken, accepted, ordered_records, take_up_of};
ghost use Rattle.records.specs.Order.{follows};
ghost use Rattle.logs.specs.Log.{held, Extends};

use logs::log::Log;
use records::record::Record;
use records::refusals::Refusal;

// The longest file of records, in bytes.
const LONGEST_FILE: usize = 65536;

// Whether a record may stand after the one before it; the first stands after none.
fn follows<R: Record>(before: Option<R>, record: &R) -> bool
    ensures { result ≡ follows R.Record.ordered before «record».now }
{
    before.is_none_or(|before| record.may_follow(&before))
}

// Refuses a piece that is no record, and records that are not in order.
fn check_pieces<R: Record>(file: &[u8]) -> Result<(), Refusal>
    ensures { result ≡ then (then (all_taken R.Record.taken (pieces R.Record.WIDTH (length file.now / R.Record.WIDTH) file.now)) (ordered_records R.Record.ordered)) (λ _. Ok tt) }
{
    let mut before: Option<R> = None;
    let mut ordered = true;
    for piece in file.chunks_exact(R::WIDTH) {
        let record = R::take(piece)?;
        ordered &= follows(before, &record);
        before = Some(record);
    }
    if ordered {
        Ok(())
    } else {
        Err(Refusal::CycleBelowTheOneBefore)
    }
}

// Enters the record that a piece is, if it is one.
fn enter_piece<R: Record>(piece: &[u8], log: &mut Log<'_, R>)
    ensures { Extends log.old log.new (accepted (R.Record.taken piece.now)) }
{
    if let Ok(record) = R::take(piece) {
        let _ = log.append(record);
    }
}

// Takes the records of a file up into a log.
pub fn take_up<R: Record>(file: &[u8], log: &mut Log<'_, R>) -> Result<(), Refusal>
    ensures value { (result, held log.new) ≡ kept (held log.old) (take_up_of R.Record.WIDTH R.Record.taken R.Record.ordered file.now (held log.old)) }
    ensures lent { log.new.places.ghost_name ≡ log.old.places.ghost_name }
{
    if file.len() % R::WIDTH != 0 || file.len() > LONGEST_FILE {
        return Err(Refusal::FileLength);
    }
    check_pieces::<R>(file)?;
    if log.room() < file.len() / R::WIDTH {
        return Err(Refusal::TooLittleRoom);
    }
    for piece in file.chunks_exact(R::WIDTH) {
        enter_piece(piece, log);
    }
    Ok(())
}
