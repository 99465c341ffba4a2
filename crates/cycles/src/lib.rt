// The machine cycle: timers, external flags, sample, poll and vector call: docs/TIMERS.md and docs/INTERRUPTS.md.
#![tactic(auto)]

pub mod cycle;
pub mod flags;
pub mod laws;
pub mod machine;
pub mod poll;
pub mod sample;
pub mod timers;
pub mod vector;
