// A run of 64 steps from the bytes of a code file and of a pin file, as text.
ghost use Rattle.std.specs.Prelude.{◌≡◌, ◌≤◌, length};
ghost use Rattle.outcome.specs.Outcome.{kept};
ghost use Rattle.logs.specs.Log.{held};
ghost use Rattle.record_files.specs.Text.{printed};
ghost use Rattle.output51.specs.declared.output.NotRun.TheVariants.{Bus, Pins};
ghost use Rattle.output51.specs.Output.{front, traced_into, pins_traced_into, output_of};
ghost use Rattle.output51.specs.Logged.{not_run_number, answered, logged, split_logged};

use boards::script::Script;
use buses::{Bus, SplitBus};
use logs::log::Log;
use panel51::Panel51;
use record_files::reader::take_up;
use record_files::text::{PINS, write_text};
use records::pins::PinRecord;
use records::port_writes::PortRecord;
use records::refusals::Refusal;
use records::traces::TraceRecord;

// The bytes of a file that count.
pub const FILE_BYTES: usize = 4096;

// The steps of the run, and the places of each of its logs.
const STEPS: u32 = 64;

const PLACES: usize = 64;

// The data bytes of the bus.
const DATA_BYTES: usize = 256;

// The bytes of a file that count.
fn front(file: &[u8]) -> &[u8]
    ensures { result.now ≡ front file.now }
{
    &file[0..file.len().min(FILE_BYTES)]
}

// Why nothing is run: the bus is not built, or the pin records are refused.
#[derive(Clone, Copy)]
enum NotRun {
    Bus(buses::Refusal),
    Pins(Refusal),
}

impl From<buses::Refusal> for NotRun {
    ghost from_gives = { λ r e. e ≡ Bus r };

    fn from(refusal: buses::Refusal) -> NotRun {
        NotRun::Bus(refusal)
    }
}

impl From<Refusal> for NotRun {
    ghost from_gives = { λ r e. e ≡ Pins r };

    fn from(refusal: Refusal) -> NotRun {
        NotRun::Pins(refusal)
    }
}

// The number of the refusal.
impl From<NotRun> for u8 {
    ghost from_gives = { λ e n. n ≡ not_run_number e };

    fn from(not_run: NotRun) -> u8 {
        match not_run {
            NotRun::Bus(refusal) => u8::from(refusal),
            NotRun::Pins(refusal) => u8::from(refusal),
        }
    }
}

// Runs a new core on a bus and on a board that plays these pin records, into a trace log, and answers the number that stopped the
// run, 0 if none.
fn run_with_records<B: Bus>(
    bus: &mut B,
    records: &[PinRecord],
    traces: &mut Log<'_, TraceRecord>,
) -> Result<u8, Refusal>
    ensures { (result, held traces.new) ≡ kept (held traces.old) (logged (traced_into (held traces.old) (B.memory bus.old) records.now)) }
{
    let mut board = Script::playing(records)?;
    let mut places = [PortRecord::BLANK; PLACES];
    let mut ports = Log::new(&mut places);
    let mut core = Panel51::new();
    let (_, stop) = core.run(bus, &mut board, STEPS, traces, &mut ports);
    Ok(stop)
}

// The same with the pin records of a file.
fn run_with_pins<B: Bus>(
    bus: &mut B,
    pins: &[u8],
    traces: &mut Log<'_, TraceRecord>,
) -> Result<u8, Refusal>
    requires { length pins.now ≤ 4096 }
    ensures { (result, held traces.new) ≡ kept (held traces.old) (logged (pins_traced_into (held traces.old) (B.memory bus.old) pins.now)) }
{
    let mut places = [PinRecord::BLANK; PINS];
    let mut records = Log::new(&mut places);
    take_up(pins, &mut records)?;
    run_with_records(bus, records.records(), traces)
}

// The same on a split bus over these two memories.
fn run_files<'a>(
    code: &'a [u8],
    data: &'a mut [u8],
    pins: &[u8],
    traces: &mut Log<'_, TraceRecord>,
) -> Result<u8, NotRun>
    requires { length pins.now ≤ 4096 }
    ensures { (result, held traces.new) ≡ kept (held traces.old) (split_logged (held traces.old) code.now «data».old pins.now) }
{
    match SplitBus::new(code, data) {
        Ok(mut bus) => Ok(run_with_pins(&mut bus, pins, traces)?),
        Err(rejected) => Err(NotRun::from(rejected.refusal)),
    }
}

// The number that stopped a run, or that of the refusal before it.
fn stop_number(stop: Result<u8, NotRun>) -> u8
    ensures { result ≡ answered stop }
{
    stop.unwrap_or_else(u8::from)
}

// Writes the whole output of run51 to the front of a memory, from the bytes of its two files, and answers its length.
pub fn write_output(code: &[u8], pins: &[u8], out: &mut [u8]) -> Result<usize, Refusal>
    ensures { (result, out.new) ≡ kept out.old (printed (output_of code.now pins.now) out.old) }
{
    let mut data = [0; DATA_BYTES];
    let mut places = [TraceRecord::BLANK; PLACES];
    let mut traces = Log::new(&mut places);
    let stop = run_files(front(code), &mut data, front(pins), &mut traces);
    write_text(&traces, stop_number(stop), out)
}
