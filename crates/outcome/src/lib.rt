// An answer and the state after it. This crate has definitions only: see specs/Outcome.antt.
#![tactic(auto)]
