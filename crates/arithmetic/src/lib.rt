// The arithmetic of the 8051 on bytes and addresses: pure functions that answer plain numbers.
// Flags stand as in PSW: carry in bit 7, auxiliary carry in bit 6, overflow in bit 2.
// Results with flags are tuples of plain numbers: a rule of the project, a form that was asked for (docs/DECISIONS.md).
#![tactic(auto)]

pub mod addresses;
pub mod bits;
pub mod laws;
pub mod shifts;
pub mod sums;
