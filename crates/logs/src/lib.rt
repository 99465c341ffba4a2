// Logs of records in lent memory: docs/RECORDS.md.
#![tactic(auto)]

pub mod log;
