ghost use Rattle.std.specs.Prelude.{◌≡◌, [], Ok, refl};
ghost use Rattle.outcome.specs.Outcome.{kept, then};
ghost use Rattle.boards.specs.Script.{Playback, Plays, first_is_due, due_before, due_after, put_levels, cycles_in_order, script_start, load_of, script_next};
ghost use Rattle.boards.specs.Played.{played_by, built};

use crate::board::Board;
pub use crate::playback::Script;
use crate::port_pins::PortPins;
use records::pins::PinRecord;
use records::refusals::Refusal;

impl<'a> Script<'a> {
    // A board that plays no records.
    pub fn new() -> Script<'a>
        ensures { played_by result ≡ script_start [] }
    {
        Script {
            records: &[],
            ticks: 0,
            rest: &[],
            pins: PortPins::new(),
        }
    }

    // A board that plays these records from the start, or the refusal of a cycle below the one before.
    pub fn playing(records: &'a [PinRecord]) -> Result<Script<'a>, Refusal>
        ensures { built result ≡ then (load_of records.now) (λ x. Ok x.1) }
    {
        let mut board = Script::new();
        board.load(records)?;
        Ok(board)
    }

    // Makes it a board that plays these records from the start, or refuses a cycle below the one before.
    pub fn load(&mut self, records: &'a [PinRecord]) -> Result<(), Refusal>
        ensures value { (result, played_by self.new) ≡ kept (played_by self.old) (load_of records.now) }
        ensures plays { Plays records.now }
    {
        if !in_order(records) {
            return Err(Refusal::CycleBelowTheOneBefore);
        }
        let PortPins { levels, driven } = PortPins::new();
        let Cursor { rest, levels } = advance(records, 0, levels);
        self.records = records;
        self.ticks = 0;
        self.rest = rest;
        self.pins = PortPins { levels, driven };
        Ok(())
    }
}

impl Board for Script<'_> {
    ghost State = { Playback };

    ghost pins = { played_by };

    ghost next = { script_next };

    ghost keeps = { λ b. refl };

    fn level(&self, port: u8) -> u8 {
        self.pins.level(port)
    }

    fn drive(&mut self, port: u8, byte: u8) {
        self.pins.drive(port, byte);
    }

    fn tick(&mut self) {
        let ticks = self.ticks.saturating_add(1);
        if is_due(self.rest, ticks) {
            let Cursor { rest, levels } = advance(self.rest, ticks, self.pins.levels);
            self.rest = rest;
            self.pins.levels = levels;
        }
        self.ticks = ticks;
    }
}

// Whether the first of the records has fallen due.
fn is_due(records: &[PinRecord], ticks: u32) -> bool
    ensures { result ≡ first_is_due ticks records.now }
{
    matches!(records, [record, ..] if record.cycle <= ticks)
}

// The records that have not come into force, and the levels that those before them give.
struct Cursor<'a> {
    rest: &'a [PinRecord],
    levels: [u8; 4],
}

// Puts the records into force that have fallen due, up to the first that has not.
fn advance<'a>(records: &'a [PinRecord], ticks: u32, before: [u8; 4]) -> Cursor<'a>
    ensures rest { result.rest.now ≡ due_after ticks records.now }
    ensures levels { result.levels ≡ put_levels before (due_before ticks records.now) }
{
    let mut rest = records;
    let mut levels = before;
    while let [record, more @ ..] = rest
        && record.cycle <= ticks
    {
        levels[u8::from(record.port) as usize] = record.level;
        rest = more;
    }
    Cursor { rest, levels }
}

// Whether no cycle is below the one before.
fn in_order(records: &[PinRecord]) -> bool
    ensures { result ≡ cycles_in_order records.now }
{
    records.is_sorted_by(|before, record| before.cycle <= record.cycle)
}
