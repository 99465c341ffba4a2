ghost use Rattle.std.specs.Prelude.{◌≡◌, ◌≤◌, length};

use records::refusals::Refusal;

// Records of any kind in the caller's memory. The count of used places stands beside them: a rule of the project, lent memory and no heap.
// That a call keeps the memory is a clause of each call that changes a log, since it speaks of two values of the log: a ghost field or a
// model speaks of one.
#[derive(Drop)]
pub struct Log<'a, R> {
    places: &'a mut [R],
    used: usize,
    ghost within: { used ≤ length places.now },
}

impl<'a, R: Copy> Log<'a, R> {
    ghost use Rattle.outcome.specs.Outcome.{kept};
    ghost use Rattle.logs.specs.Log.{held, append_of, extend_of, capacity_of, entry_of, full_of, empty};

    // An empty log over the places.
    pub fn new(places: &'a mut [R]) -> Log<'a, R>
        ensures value { held result ≡ empty places.old }
        ensures lent { result.places.ghost_name ≡ places.entry.ghost_name }
    {
        Log { places, used: 0 }
    }

    // Its records, from the first to the last.
    pub fn records(&self) -> &[R]
        ensures { result.now ≡ (held self.now).made }
    {
        &self.places[0..self.used]
    }

    // The number of records in it.
    pub fn len(&self) -> usize
        ensures { result ≡ length (held self.now).made }
    {
        self.records().len()
    }

    // The number of records that it has places for.
    pub fn capacity(&self) -> usize
        ensures { result ≡ capacity_of (held self.now) }
    {
        self.places.len()
    }

    // The number of free places.
    pub fn room(&self) -> usize
        ensures { result ≡ length (held self.now).free }
    {
        self.capacity() - self.used
    }

    pub fn is_full(&self) -> bool
        ensures { result ≡ full_of (held self.now) }
    {
        self.room() == 0
    }

    // Enters a record after the last one, or refuses a full log.
    pub fn append(&mut self, record: R) -> Result<(), Refusal>
        ensures value { (result, held self.new) ≡ kept (held self.old) (append_of (held self.old) «record») }
        ensures lent { self.new.places.ghost_name ≡ self.old.places.ghost_name }
    {
        if self.is_full() {
            return Err(Refusal::LogFull);
        }
        self.places[self.used] = record;
        self.used += 1;
        Ok(())
    }

    // Enters records after the last one, or refuses too few free places.
    pub fn extend(&mut self, records: &[R]) -> Result<(), Refusal>
        ensures value { (result, held self.new) ≡ kept (held self.old) (extend_of (held self.old) records.now) }
        ensures lent { self.new.places.ghost_name ≡ self.old.places.ghost_name }
    {
        if self.room() < records.len() {
            return Err(Refusal::TooLittleRoom);
        }
        for record in records {
            let _ = self.append(*record);
        }
        Ok(())
    }

    // The record at a place, counted from 0, or its absence.
    pub fn entry(&self, i: usize) -> Option<R>
        ensures { result ≡ entry_of (held self.now) i }
    {
        self.records().get(i).copied()
    }
}
