// Whole files of records, and their text: docs/RECORDS.md.
#![tactic(auto)]

pub mod reader;
pub mod text;
pub mod writer;
