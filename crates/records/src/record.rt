ghost use Rattle.std.specs.Prelude.{◌≡◌, ℕ, ◌<◌, ◌≤◌, Bool, List, length, IfOk, Ok, Result};
ghost use Rattle.outcome.specs.Outcome.{kept};
ghost use Rattle.records.specs.declared.refusals.Refusal.{Refusal};
ghost use Rattle.records.specs.Bytes.{stored};

use crate::refusals::Refusal;

// A kind of record: its bytes, and what is taken from bytes.
pub trait Record: Copy {
    // bytes of a record
    const WIDTH: usize;

    ghost WIDTH: { ℕ };

    ghost image: { Self → List ℕ };

    ghost taken: { List ℕ → Result Self Refusal };

    ghost ordered: { Self → Self → Bool };

    ghost wide: { 0 < WIDTH };

    ghost narrow: { WIDTH ≤ 16 };

    ghost sized: { (r : Self) → length (image r) ≡ WIDTH };

    // Writes the record's bytes to the front of a memory.
    fn put(&self, out: &mut [u8]) -> Result<(), Refusal>
        ensures written { (result, out.new) ≡ kept out.old (stored (image self.now) out.old) }
        ensures back { taken (image self.now) ≡ Ok self.now };

    // The record that has just these bytes.
    fn take(bytes: &[u8]) -> Result<Self, Refusal>
        ensures value { result ≡ taken bytes.now }
        ensures exact { IfOk result (λ x. image x ≡ bytes.now) };

    // Whether the record may stand right after another in a file.
    fn may_follow(&self, before: &Self) -> bool
        ensures { result ≡ ordered before.now self.now };
}

// Writes bytes to the front of a memory that has room for them.
pub(crate) fn store(bytes: &[u8], out: &mut [u8]) -> Result<(), Refusal>
    ensures { (result, out.new) ≡ kept out.old (stored bytes.now out.old) }
{
    let n = bytes.len();
    if out.len() < n {
        return Err(Refusal::TooLittleRoom);
    }
    out[0..n].copy_from_slice(bytes);
    Ok(())
}
