// The three kinds of record: docs/RECORDS.md.
#![tactic(auto)]

pub mod pins;
pub mod port_writes;
pub mod ports;
pub mod record;
pub mod refusals;
pub mod traces;
