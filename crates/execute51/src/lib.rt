// The effect of every instruction: docs/CORE.md.
#![tactic(auto)]

mod arithmetical;
mod boolean;
pub mod cases;
mod control;
mod effect;
pub mod execute;
pub mod external;
mod fetch;
mod logical;
pub mod told;
mod transfer;
mod values;
