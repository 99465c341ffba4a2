// The whole output of run51 from the bytes of its two files, and worked cases: docs/MACHINE.md.
#![tactic(auto)]

pub mod cases;
pub mod output;
