// One machine cycle.
ghost use Rattle.std.specs.Prelude.{◌≡◌, true};
ghost use Rattle.cycles.specs.State.{state_of};
ghost use Rattle.cycles.specs.Cycle.{tick_of, is_quiet, ticked_of, polled_of, cycle_of, cycles_of};

use crate::flags::raise_flags;
use crate::machine::Machine;
use crate::poll::poll;
use crate::sample::{Sample, take_sample};
use crate::timers::{count_timers, is_split};
use arithmetic::bits::bit;
use boards::board::Board;
use core51::state::Timers;

// The timers, then the external flags, at the pins of port 3, which are kept for the next cycle.
fn tick(timers: &mut Timers, pins: u8)
    ensures { timers.new ≡ tick_of pins timers.old }
{
    count_timers(timers, pins);
    raise_flags(timers, pins);
    timers.pins = pins;
}

// Whether nothing can change in a cycle: no timer runs, nothing is requested, and the pins request nothing.
fn is_quiet(timers: &Timers, scon: u8, pins: u8) -> bool
    ensures { result ≡ is_quiet scon pins timers.now }
{
    let tcon = timers.tcon;
    !bit(tcon, 1)
        && !bit(tcon, 3)
        && !bit(tcon, 4)
        && !bit(tcon, 5)
        && !bit(tcon, 6)
        && !bit(tcon, 7)
        && !is_split(timers.tmod)
        && bit(pins, 2)
        && bit(pins, 3)
        && !bit(scon, 0)
        && !bit(scon, 1)
}

impl Machine {
    // Accepts a request of the sample of the cycle before, or none.
    #[tactic(auto, unfolding(crate::specs::Cycle::polled_of))]
    fn poll(&mut self)
        ensures { state_of self.new ≡ polled_of (state_of self.old) }
    {
        let control = &self.core.chip.control;
        self.interrupts.accepted = poll(
            self.interrupts.sample,
            control.ie,
            control.ip,
            self.interrupts.marks,
        );
    }

    // A cycle in which nothing can change but the pins.
    fn rest(&mut self, pins: u8)
        requires { is_quiet self.old.core.chip.serial.scon pins self.old.core.chip.timers ≡ true }
        ensures { state_of self.new ≡ ticked_of pins (state_of self.old) }
    {
        self.core.chip.timers.pins = pins;
        self.interrupts.sample = Sample::default();
        self.cycles = self.cycles.wrapping_add(1);
    }

    #[tactic(auto, unfolding(crate::specs::Cycle::ticked_of))]
    fn work(&mut self, pins: u8)
        ensures { state_of self.new ≡ ticked_of pins (state_of self.old) }
    {
        let chip = &mut self.core.chip;
        tick(&mut chip.timers, pins);
        self.interrupts.sample = take_sample(chip.timers.tcon, chip.serial.scon);
        self.cycles = self.cycles.wrapping_add(1);
    }

    // The timers and flags at the pins of port 3, then the sample.
    fn tick(&mut self, pins: u8)
        ensures { state_of self.new ≡ ticked_of pins (state_of self.old) }
    {
        if is_quiet(&self.core.chip.timers, self.core.chip.serial.scon, pins) {
            self.rest(pins);
        } else {
            self.work(pins);
        }
    }

    // One machine cycle; the last cycle of a step polls, if the step does.
    #[tactic(auto, unfolding(crate::specs::Cycle::cycle_of))]
    pub fn cycle<D: Board>(&mut self, board: &mut D, polls: bool)
        ensures { (state_of self.new, D.pins board.new) ≡ cycle_of D.next polls (state_of self.old, D.pins board.old) }
    {
        if polls {
            self.poll();
        }
        board.tick();
        let pins = self.core.chip.registers.latches[3] & board.level(3);
        self.tick(pins);
    }

    // The machine cycles of a step, at least one.
    pub fn run_cycles<D: Board>(&mut self, board: &mut D, count: u8, polls: bool)
        ensures { (state_of self.new, D.pins board.new) ≡ cycles_of D.next count polls (state_of self.old, D.pins board.old) }
    {
        for _i in 0..count.saturating_sub(1) {
            self.cycle(board, false);
        }
        self.cycle(board, polls);
    }
}
