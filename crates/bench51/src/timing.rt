// A program run from the reset to its end, in runs of 60,000 steps, each into empty logs.
use crate::programs::{END, Program};
use anyhow::anyhow;
use boards::script::Script;
use buses::SplitBus;
use logs::log::Log;
use panel51::Panel51;
use records::pins::PinRecord;
use records::port_writes::PortRecord;
use records::ports::Port;
use records::traces::TraceRecord;
use std::time::{Duration, Instant};

// The steps of one run.
const STEPS: u32 = 60_000;

// The places of each log.
const PLACES: usize = 65_535;

// The most runs to the end of a program.
const MOST_RUNS: u32 = 1_000;

// The pin records, and the machine cycles between them.
const PINS: usize = 512;

const PIN_CYCLES: u32 = 5_000;

const DATA_BYTES: usize = 1024;

// The levels of port 2, changed again and again.
fn pin_records() -> [PinRecord; PINS] {
    let mut records = [PinRecord::BLANK; PINS];
    for (i, record) in (0u32..).zip(&mut records) {
        *record = PinRecord {
            cycle: i.wrapping_mul(PIN_CYCLES),
            port: Port::P2,
            level: (i % 256) as u8,
        };
    }
    records
}

// Steps in a row: how many, how many of them at the end of the program, and the number that stopped them, as run gives it.
#[derive(Clone, Copy)]
struct Made {
    steps: u64,
    at_end: u64,
    stop: u8,
}

// The steps of a log that were made at the end of the program, which is where its last step was made, if any was.
fn steps_at_end(traces: &Log<'_, TraceRecord>) -> u64 {
    traces
        .records()
        .iter()
        .rev()
        .take_while(|record| record.pc == END)
        .count() as u64
}

// A core on a split bus and the script board, and the places of its logs.
#[derive(Drop)]
struct Bench<'a> {
    core: Panel51,
    bus: SplitBus<'a>,
    board: Script<'a>,
    traces: Vec<TraceRecord>,
    ports: Vec<PortRecord>,
}

impl Bench<'_> {
    // One run into empty logs.
    fn run_once(&mut self) -> Made {
        let mut traces = Log::new(self.traces.as_mut_slice());
        let mut ports = Log::new(self.ports.as_mut_slice());
        let (steps, stop) = self.core.run(
            &mut self.bus,
            &mut self.board,
            STEPS,
            &mut traces,
            &mut ports,
        );
        Made {
            steps: u64::from(steps),
            at_end: steps_at_end(&traces),
            stop,
        }
    }

    // Runs until the program is at its end or stops, at most so many.
    fn runs(&mut self, most: u32) -> Made {
        let mut steps = 0u64;
        for _ in 0..most {
            let made = self.run_once();
            steps = steps.wrapping_add(made.steps);
            if made.at_end != 0 || made.stop != 0 {
                return Made { steps, ..made };
            }
        }
        Made {
            steps,
            at_end: 0,
            stop: 0,
        }
    }
}

// A program from the reset, on a split bus and the script board, and the time that its runs took.
fn measure(rt: &HostRuntime, program: Program, most: u32) -> anyhow::Result<(Made, Duration)> {
    let code = program.code();
    let mut data = [0; DATA_BYTES];
    let Ok(bus) = SplitBus::new(&code, &mut data) else {
        return Err(anyhow!("no bus"));
    };
    let records = pin_records();
    let Ok(mut board) = Script::playing(&records) else {
        return Err(anyhow!("pin records out of order"));
    };
    let mut core = Panel51::new();
    core.reset(&mut board);
    let mut bench = Bench {
        core,
        bus,
        board,
        traces: vec![in rt.alloc(); TraceRecord::BLANK; PLACES]?,
        ports: vec![in rt.alloc(); PortRecord::BLANK; PLACES]?,
    };
    let began = Instant::now(rt)?;
    let made = bench.runs(most);
    let took = began.elapsed(rt)?;
    Ok((made, took))
}

// One run of a program: what it made.
pub fn print_run(rt: &HostRuntime, program: Program) -> anyhow::Result<()> {
    let (made, _) = measure(rt, program, 1)?;
    let name = program.name();
    let steps = made.steps;
    let stop = made.stop;
    println!(rt; "{name}: {steps} steps, stop {stop}")?;
    Ok(())
}

// A program run to its end so many times: its steps, and the time of a step in the fastest.
pub fn print_time(rt: &HostRuntime, program: Program, count: u32) -> anyhow::Result<()> {
    let mut fastest = u128::MAX;
    let mut steps = 0;
    for _ in 0..count {
        let (made, took) = measure(rt, program, MOST_RUNS)?;
        steps = made.steps.wrapping_sub(made.at_end);
        let tenths = took.as_nanos().wrapping_mul(10) / u128::from(made.steps.max(1));
        fastest = fastest.min(tenths);
    }
    let name = program.name();
    let whole = fastest / 10;
    let tenth = fastest % 10;
    println!(rt; "{name}: {steps} steps to the end, {whole}.{tenth} ns a step")?;
    Ok(())
}
