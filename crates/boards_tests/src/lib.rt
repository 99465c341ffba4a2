// Both boards at their edges.
#![tactic(auto)]

#[cfg(test)]
mod both;
#[cfg(test)]
mod loopback;
#[cfg(test)]
mod script;
