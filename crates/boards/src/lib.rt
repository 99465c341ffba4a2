// What hangs on the port pins: docs/BOARDS.md.
#![tactic(auto)]

pub mod any_board;
pub mod board;
pub mod loopback;
mod playback;
pub mod port_pins;
pub mod script;
#[cfg(test)]
mod tests;
