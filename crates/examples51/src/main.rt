// Runs the worked examples of Intel's description of the 8051, which the standard input lists, and tells of each one whether the core
// leaves what is printed there.
#![tactic(auto)]

mod compare;
mod levels;
mod problem;
mod run;
mod setup;
mod table;

use compare::differences;
use problem::Problem;
use run::run;
use setup::Setup;
use std::alloc::Global;
use std::io;
use table::{Example, apply, columns, program};

fn given(example: Example<'_>) -> Result<Setup, Problem> {
    let mut setup = Setup::reset();
    apply(&mut setup, example.given).ok_or(Problem::Given)?;
    setup.registers.settle();
    Ok(setup)
}

// What is given, with PC after the code and what is expected put in.
fn wanted(example: Example<'_>, length: usize) -> Result<Setup, Problem> {
    let mut setup = given(example)?;
    let length = u16::try_from(length).map_err(|_| Problem::NoRoom)?;
    setup.registers.pc = setup.registers.pc.wrapping_add(length);
    apply(&mut setup, example.expected).ok_or(Problem::Expected)?;
    setup.registers.settle();
    Ok(setup)
}

// The differences between what an example leaves and what it is to leave.
fn outcome(heap: Global, example: Example<'_>) -> Result<String, Problem> {
    let code = program(heap, example.code)?;
    let wanted = wanted(example, code.bytes.len())?;
    let got = run(given(example)?, &code)?;
    Ok(differences(heap, &got, &wanted)?)
}

fn tell(rt: &HostRuntime, line: &str) -> io::Result<()> {
    let Some(example) = columns(line) else {
        return println!(rt; "{line}: wrong line: not four columns");
    };
    let name = example.name;
    match outcome(rt.alloc(), example) {
        Ok(text) if text.is_empty() => println!(rt; "{name}: ok"),
        Ok(text) => println!(rt; "{name}:{text}"),
        Err(problem) => println!(rt; "{name}: {problem}"),
    }
}

fn main(rt: HostRuntime) -> io::Result<()> {
    for line in rt.lines(rt.alloc()) {
        let line = line?;
        if !line.as_str().starts_with('#') {
            tell(&rt, line.as_str())?;
        }
    }
    Ok(())
}
