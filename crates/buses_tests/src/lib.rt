// Tests of the buses and of their layers, alone and piled.
#![tactic(auto)]

#[cfg(test)]
mod access;
#[cfg(test)]
mod bases;
#[cfg(test)]
mod layers;
#[cfg(test)]
mod piled;
pub mod piles;
