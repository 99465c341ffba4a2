// Tells where what an example leaves is not what it is to leave.
use crate::setup::Setup;
use core51::state::Registers;
use std::alloc::{AllocError, Global};
use std::fmt::{Display, Write};

// The differences in words, none where all is as expected.
#[derive(Drop)]
struct Report {
    text: String,
}

impl Report {
    fn one(&mut self, name: impl Display + Drop, got: u16, wanted: u16) -> Result<(), AllocError> {
        if got != wanted {
            write!(self.text, " {name}={got:02X} and not {wanted:02X}")?;
        }
        Ok(())
    }

    fn byte(&mut self, name: impl Display + Drop, got: u8, wanted: u8) -> Result<(), AllocError> {
        self.one(name, u16::from(got), u16::from(wanted))
    }

    // A number that counts only where the line tells it.
    fn told(
        &mut self,
        name: &str,
        got: Option<u16>,
        wanted: Option<u16>,
    ) -> Result<(), AllocError> {
        if let (Some(got), Some(wanted)) = (got, wanted) {
            self.one(name, got, wanted)?;
        }
        Ok(())
    }

    fn bytes(&mut self, before: &str, got: &[u8], wanted: &[u8]) -> Result<(), AllocError> {
        // most slices agree, and to compare them whole costs less than byte by byte
        if got == wanted {
            return Ok(());
        }
        for (i, (got, wanted)) in got.iter().zip(wanted).enumerate() {
            if got != wanted {
                self.byte(format_args!("{before}[{i:02X}]"), *got, *wanted)?;
            }
        }
        Ok(())
    }

    fn registers(&mut self, got: &Registers, wanted: &Registers) -> Result<(), AllocError> {
        self.byte("A", got.a, wanted.a)?;
        self.byte("B", got.b, wanted.b)?;
        self.byte("PSW", got.psw, wanted.psw)?;
        self.byte("SP", got.sp, wanted.sp)?;
        self.one("DPTR", got.dptr(), wanted.dptr())?;
        self.one("PC", got.pc, wanted.pc)?;
        self.bytes("P", &got.latches, &wanted.latches)?;
        self.bytes("", &got.ram, &wanted.ram)
    }
}

// All differences between two states.
pub fn differences(heap: Global, got: &Setup, wanted: &Setup) -> Result<String, AllocError> {
    let mut report = Report {
        text: String::new(heap),
    };
    report.registers(&got.registers, &wanted.registers)?;
    report.bytes("L", &got.levels, &wanted.levels)?;
    report.bytes("X", &got.external, &wanted.external)?;
    report.told("STEPS", got.steps, wanted.steps)?;
    report.told("CYCLES", got.cycles, wanted.cycles)?;
    Ok(report.text)
}
