// One step, and the reset: docs/MACHINE.md.
#![tactic(auto)]

pub mod action;
pub mod reset;
pub mod step;
pub mod stop;
