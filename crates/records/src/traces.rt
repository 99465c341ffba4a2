ghost use Rattle.std.specs.Prelude.{◌≡◌, ℕ, ◌<◌, ◌≤◌, IfOk, Ok, refl};
ghost use Rattle.std.proofs.Common.{lit<, lit≤};
ghost use Rattle.records.specs.Trace.{source_number, source_of, cycles_number, cycles_of, marks_byte, marks_of, kind_byte, opcode_byte, source_byte, kind_of, kind_bytes, kind_taken, trace_bytes, trace_taken, trace_ordered};

use crate::record::{Record, store};
use crate::refusals::Refusal;

// One of the five interrupt sources, by their numbers.
#[derive(Clone, Copy, Debug, PartialEq, Eq)]
pub enum Source {
    External0 = 1,
    Timer0 = 2,
    External1 = 3,
    Timer1 = 4,
    Serial = 5,
}

// What a step was.
#[derive(Clone, Copy, Debug, PartialEq, Eq)]
pub enum StepKind {
    Instruction { opcode: u8 },
    VectorCall { source: Source },
}

// The machine cycles of a step.
#[derive(Clone, Copy, Debug, PartialEq, Eq)]
pub enum Cycles {
    One = 1,
    Two = 2,
    Four = 4,
}

// Which services are in progress.
#[derive(Clone, Copy, Debug, PartialEq, Eq)]
pub struct Marks {
    pub low: bool,
    pub high: bool,
}

// One step: what it was, the PC before it, its cycles, and the marks and the accumulator after it.
#[derive(Clone, Copy, Debug, PartialEq, Eq)]
pub struct TraceRecord {
    pub kind: StepKind,
    pub pc: u16,
    pub cycles: Cycles,
    pub marks: Marks,
    pub accumulator: u8,
}

impl TraceRecord {
    // What the free places of a memory are filled with.
    pub const BLANK: TraceRecord = TraceRecord {
        kind: StepKind::Instruction { opcode: 0 },
        pc: 0,
        cycles: Cycles::One,
        marks: Marks {
            low: false,
            high: false,
        },
        accumulator: 0,
    };
}

// The number of a source, which gives the source back.
impl From<Source> for u8 {
    ghost from_gives = { λ s n. (n ≡ source_number s) × (source_of n ≡ Ok s) };

    fn from(source: Source) -> u8 {
        source as u8
    }
}

impl TryFrom<u8> for Source {
    type Error = Refusal;

    ghost try_from_gives = { λ n r. (r ≡ source_of n) × IfOk r (λ s. source_number s ≡ n) };

    fn try_from(n: u8) -> Result<Source, Refusal> {
        match n {
            1 => Ok(Source::External0),
            2 => Ok(Source::Timer0),
            3 => Ok(Source::External1),
            4 => Ok(Source::Timer1),
            5 => Ok(Source::Serial),
            _ => Err(Refusal::FieldOutsideLayout),
        }
    }
}

impl From<Cycles> for u8 {
    ghost from_gives = { λ c n. (n ≡ cycles_number c) × (cycles_of n ≡ Ok c) };

    fn from(cycles: Cycles) -> u8 {
        cycles as u8
    }
}

impl TryFrom<u8> for Cycles {
    type Error = Refusal;

    ghost try_from_gives = { λ n r. (r ≡ cycles_of n) × IfOk r (λ c. cycles_number c ≡ n) };

    fn try_from(n: u8) -> Result<Cycles, Refusal> {
        match n {
            1 => Ok(Cycles::One),
            2 => Ok(Cycles::Two),
            4 => Ok(Cycles::Four),
            _ => Err(Refusal::FieldOutsideLayout),
        }
    }
}

// The marks as the bits of a byte.
impl From<Marks> for u8 {
    ghost from_gives = { λ m b. (b ≡ marks_byte m) × (marks_of b ≡ Ok m) };

    fn from(marks: Marks) -> u8 {
        marks.low as u8 + 2 * marks.high as u8
    }
}

impl TryFrom<u8> for Marks {
    type Error = Refusal;

    ghost try_from_gives = { λ b r. (r ≡ marks_of b) × IfOk r (λ m. marks_byte m ≡ b) };

    fn try_from(b: u8) -> Result<Marks, Refusal> {
        if b > 3 {
            return Err(Refusal::FieldOutsideLayout);
        }
        Ok(Marks {
            low: b % 2 == 1,
            high: b / 2 == 1,
        })
    }
}

// A record's bytes kind, opcode and source.
impl From<StepKind> for [u8; 3] {
    ghost from_gives = { λ k b. (b ≡ kind_bytes k) × (kind_of (kind_byte k) (opcode_byte k) (source_byte k) ≡ Ok k) };

    fn from(kind: StepKind) -> [u8; 3] {
        match kind {
            StepKind::Instruction { opcode } => [0, opcode, 0],
            StepKind::VectorCall { source } => [1, 0, u8::from(source)],
        }
    }
}

impl TryFrom<[u8; 3]> for StepKind {
    type Error = Refusal;

    ghost try_from_gives = { λ b r. (r ≡ kind_taken b) × IfOk r (λ k. kind_bytes k ≡ b) };

    fn try_from(bytes: [u8; 3]) -> Result<StepKind, Refusal> {
        match bytes {
            [0, opcode, 0] => Ok(StepKind::Instruction { opcode }),
            [1, 0, source] => Ok(StepKind::VectorCall {
                source: Source::try_from(source)?,
            }),
            _ => Err(Refusal::FieldOutsideLayout),
        }
    }
}

impl Record for TraceRecord {
    const WIDTH: usize = 8;

    ghost WIDTH = { 8 };

    ghost image = { trace_bytes };

    ghost taken = { trace_taken };

    ghost ordered = { trace_ordered };

    ghost wide = { lit< tt };

    ghost narrow = { lit≤ tt };

    ghost sized = { λ r. refl };

    fn put(&self, out: &mut [u8]) -> Result<(), Refusal> {
        let TraceRecord {
            kind,
            pc,
            cycles,
            marks,
            accumulator,
        } = *self;
        let [kind, opcode, source] = <[u8; 3]>::from(kind);
        let [pc1, pc0] = pc.to_be_bytes();
        let cycles = u8::from(cycles);
        let marks = u8::from(marks);
        store(
            &[kind, pc1, pc0, opcode, cycles, source, marks, accumulator],
            out,
        )
    }

    fn take(bytes: &[u8]) -> Result<TraceRecord, Refusal> {
        match bytes {
            [kind, pc1, pc0, opcode, cycles, source, marks, accumulator] => {
                let pc = u16::from_be_bytes([*pc1, *pc0]);
                let kind = StepKind::try_from([*kind, *opcode, *source])?;
                let cycles = Cycles::try_from(*cycles)?;
                let marks = Marks::try_from(*marks)?;
                Ok(TraceRecord {
                    kind,
                    pc,
                    cycles,
                    marks,
                    accumulator: *accumulator,
                })
            }
            _ => Err(Refusal::FieldOutsideLayout),
        }
    }

    fn may_follow(&self, _before: &TraceRecord) -> bool {
        true
    }
}
