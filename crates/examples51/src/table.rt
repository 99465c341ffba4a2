// The lines of the table.
ghost use Rattle.std.specs.Prelude.{◌<◌, IfSome};

use crate::problem::Problem;
use crate::setup::{Cell, Part, Setup};
use records::ports::Port;
use std::alloc::Global;

// name ; code ; given ; expected
#[derive(Clone, Copy)]
pub struct Example<'a> {
    pub name: &'a str,
    pub code: &'a str,
    pub given: &'a str,
    pub expected: &'a str,
}

// The bytes of the code, and how many instructions they are.
#[derive(Drop)]
pub struct Code {
    pub bytes: Vec<u8>,
    pub instructions: u16,
}

pub fn columns(line: &str) -> Option<Example<'_>> {
    let (name, rest) = line.split_once(';')?;
    let (code, rest) = rest.split_once(';')?;
    let (given, expected) = rest.split_once(';')?;
    Some(Example {
        name: name.trim(),
        code,
        given,
        expected,
    })
}

// A digit of base sixteen, a capital one alone: the library takes small letters too.
fn digit(byte: u8) -> Option<u8>
    ensures { IfSome result (λ d. d < 16) }
{
    match byte {
        b'0'..=b'9' => Some(byte - b'0'),
        b'A'..=b'F' => Some(byte - b'A' + 10),
        _ => None,
    }
}

fn byte(high: u8, low: u8) -> Option<u8> {
    Some(digit(high)? * 16 + digit(low)?)
}

// Two digits of base sixteen.
fn code_byte(word: &str) -> Option<u8> {
    match word.as_bytes() {
        [high, low] => byte(*high, *low),
        _ => None,
    }
}

fn port(byte: u8) -> Option<Port> {
    Port::try_from(byte.checked_sub(b'0')?).ok()
}

// The number of a working register, by its range of characters: `to_digit` answers a u32, to be converted back.
fn register(byte: u8) -> Option<u8>
    ensures { IfSome result (λ n. n < 8) }
{
    match byte {
        b'0'..=b'7' => Some(byte - b'0'),
        _ => None,
    }
}

fn ram(high: u8, low: u8) -> Option<Cell> {
    let at = byte(high, low)?;
    (at < 128).then_some(Cell::Ram(at))
}

fn cell(name: &str) -> Option<Cell> {
    match name.as_bytes() {
        b"A" => Some(Cell::A),
        b"B" => Some(Cell::B),
        b"SP" => Some(Cell::Sp),
        [b'R', n] => Some(Cell::Ram(register(*n)?)),
        [b'P', n] => Some(Cell::Latch(port(*n)?)),
        [b'L', n] => Some(Cell::Level(port(*n)?)),
        [b'[', high, low, b']'] => ram(*high, *low),
        [b'X', b'[', high, low, b']'] => Some(Cell::External(byte(*high, *low)?)),
        _ => None,
    }
}

fn part(name: &str) -> Option<Part> {
    match name.as_bytes() {
        b"CY" => Some(Part::Flag(7)),
        b"AC" => Some(Part::Flag(6)),
        b"OV" => Some(Part::Flag(2)),
        b"DPTR" => Some(Part::Dptr),
        b"PC" => Some(Part::Pc),
        b"STEPS" => Some(Part::Steps),
        b"CYCLES" => Some(Part::Cycles),
        _ => Some(Part::Cell(cell(name)?)),
    }
}

// The number of steps and of cycles is in base ten, all else in base sixteen.
fn number(part: Part, text: &str) -> Option<u16> {
    match part {
        Part::Steps | Part::Cycles => text.parse::<u16>().ok(),
        _ => u16::from_str_radix(text, 16).ok(),
    }
}

fn set(setup: &mut Setup, word: &str) -> Option<()> {
    let (name, text) = word.split_once('=')?;
    let part = part(name)?;
    setup.put(part, number(part, text)?)
}

// Puts all that a column names into a state.
pub fn apply(setup: &mut Setup, column: &str) -> Option<()> {
    for word in column.split_whitespace() {
        set(setup, word)?;
    }
    Some(())
}

fn append(bytes: &mut Vec<u8>, instruction: &str) -> Result<(), Problem> {
    for word in instruction.split_whitespace() {
        bytes.push(code_byte(word).ok_or(Problem::Code)?)?;
    }
    Ok(())
}

// The code of an example.
pub fn program(heap: Global, column: &str) -> Result<Code, Problem> {
    let mut bytes = Vec::new(heap);
    // counted modulo 65,536
    let instructions = column
        .split(',')
        .try_fold(0u16, |count, instruction| -> Result<u16, Problem> {
            append(&mut bytes, instruction)?;
            Ok(count.wrapping_add(1))
        })?;
    Ok(Code {
        bytes,
        instructions,
    })
}
