// The state of the core, the places that an address names, and the refusals of the emulated program: docs/CORE.md.
#![tactic(auto)]

pub mod fault;
pub mod operands;
pub mod parity;
pub mod places;
pub mod registers;
pub mod stack;
pub mod state;
