// Times the call run on three programs: docs/SPEED.md. Without an argument each program makes one run, and no time is printed.
#![tactic(auto)]

mod hex;
mod programs;
mod timing;

use crate::hex::print_hex;
use crate::programs::Program;
use crate::timing::{print_run, print_time};
use anyhow::Context;
use std::env;

const PROGRAMS: [Program; 3] = [Program::Arithmetic, Program::Movx, Program::Interrupts];

fn print_runs(rt: &HostRuntime) -> anyhow::Result<()> {
    for program in PROGRAMS {
        print_run(rt, program)?;
    }
    Ok(())
}

fn print_times(rt: &HostRuntime, count: u32) -> anyhow::Result<()> {
    for program in PROGRAMS {
        print_time(rt, program, count)?;
    }
    Ok(())
}

// The Intel HEX file of the program that has this name.
fn print_code(rt: &HostRuntime, name: &str) -> anyhow::Result<()> {
    let program = PROGRAMS
        .into_iter()
        .find(|program| program.name() == name)
        .context("no program of that name")?;
    print_hex(rt, program)
}

// Without arguments one run of each program; with a number that many timed runs; with "hex" and a name the code.
fn bench(rt: &HostRuntime) -> anyhow::Result<()> {
    let mut words = env::args(rt)?.skip(1);
    let Some(first) = words.next() else {
        return print_runs(rt);
    };
    match words.next() {
        Some(name) => print_code(rt, name.as_str()),
        None => print_times(rt, first.parse::<u32>()?),
    }
}

fn main(rt: HostRuntime) -> anyhow::Result<()> {
    bench(&rt)
}
