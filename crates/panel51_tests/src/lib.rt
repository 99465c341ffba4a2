// The calls new, reset, step and run on both buses, all layers and both boards.
#![tactic(auto)]

#[cfg(test)]
mod interrupts;
#[cfg(test)]
mod layers;
#[cfg(test)]
mod outputs;
#[cfg(test)]
mod refusals;
#[cfg(test)]
mod runs;
