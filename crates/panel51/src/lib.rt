// PANEL51: the 8051 core with its calls new, reset, step and run: docs/MACHINE.md.
#![tactic(auto)]

mod panel;
mod run;

pub use panel::Panel51;
