// The machine: the core with its interrupts and its count of machine cycles.
use crate::poll::Request;
use crate::sample::Sample;
use core51::parity::Core;
use records::traces::Marks;

// The services in progress, the request that the next step calls, and the sample of the last cycle.
#[derive(Drop)]
pub struct Interrupts {
    pub marks: Marks,
    pub accepted: Option<Request>,
    pub sample: Sample,
}

#[derive(Drop)]
pub struct Machine {
    pub core: Core,
    pub interrupts: Interrupts,
    pub cycles: u32,
}
