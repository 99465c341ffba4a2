// A small machine on which a request waits as long as the law lets it.
ghost use Rattle.std.specs.Prelude.{◌≡◌, ℕ, ◌+◌, ◌*◌};
ghost use Rattle.history.specs.Promise.{limit};
ghost use Rattle.history.specs.Cycles.{machine};
ghost use Rattle.history.specs.Small.{restarted, begun, polled, ticked, small, cycles_and_state, Best};
ghost use Rattle.std.proofs.Common.{lit≤};
ghost use Rattle.history.specs.Attained.{small_law};

use crate::Cycled;

// One source at the high level, whose line comes and stays. The program is some instructions that write IE, of 2 cycles each,
// and after them one of 4 cycles again and again.
#[derive(Clone, Copy, Drop)]
pub struct Small {
    // instructions that write IE, still to come
    pub controls: u32,
    // cycles until the request is held
    pub until: u32,
    // the request was held at the end of the last cycle
    pub sample: bool,
    pub enabled: bool,
    pub accepted: bool,
    pub serving: bool,
}

// What a step does.
#[derive(Clone, Copy, Drop)]
pub enum Work {
    Call,
    Control,
    Long,
}

impl Small {
    pub fn reset(&mut self)
        ensures { self.new ≡ restarted self.old }
    {
        self.sample = false;
        self.enabled = false;
        self.accepted = false;
        self.serving = false;
    }

    // What a step does before its cycles.
    pub fn begin(&mut self) -> Work
        ensures { (result, self.new) ≡ begun self.old }
    {
        if self.accepted {
            self.accepted = false;
            self.serving = true;
            Work::Call
        } else if self.controls > 0 {
            self.controls -= 1;
            self.enabled = true;
            Work::Control
        } else {
            Work::Long
        }
    }

    // The poll looks at the sample of the cycle before.
    pub fn poll(&mut self)
        ensures { self.new ≡ polled self.old }
    {
        self.accepted = self.sample && self.enabled && !self.serving;
    }

    // A machine cycle besides its poll.
    pub fn tick(&mut self)
        ensures { self.new ≡ ticked self.old }
    {
        self.until = self.until.saturating_sub(1);
        self.sample = self.until == 0;
    }

    // A step; it answers how many cycles it had.
    pub fn step(&mut self) -> u32
        ensures { (result, self.new) ≡ cycles_and_state self.old ((machine small).stepped self.old) }
    {
        match self.begin() {
            Work::Call => {
                self.tick();
                self.poll();
                self.tick();
                2
            }
            Work::Control => {
                self.tick();
                self.tick();
                2
            }
            Work::Long => {
                self.tick();
                self.tick();
                self.tick();
                self.poll();
                self.tick();
                4
            }
        }
    }
}

// The small machine keeps the laws.
impl Cycled for Small {
    ghost State = { Self };

    ghost parts = { small };

    ghost highest = { 1 };

    ghost longest = { 4 };

    ghost unpolled = { 2 };

    ghost keeps = { small_law (lit≤ tt) (lit≤ tt) (lit≤ tt) };
}

// The limit of the law is the best possible: the small machine keeps the laws with instructions of at most 4 cycles, and of at most 2 if
// they do not poll, and for every k a wait of exactly 2k + 6 cycles occurs on it.
pub fn attains_limit()
    ensures best { Best small 1 4 2 }
    ensures figure { (k : ℕ) → limit 4 2 k ≡ 2 * k + 6 }
{}

#[cfg(test)]
mod tests {
    use super::*;

    fn new(controls: u32) -> Small {
        Small {
            controls,
            until: 2,
            sample: false,
            enabled: false,
            accepted: false,
            serving: false,
        }
    }

    // The request comes with the last cycle of the first instruction, and waits through the long one and its call.
    #[test]
    fn waits_six(rt: HostRuntime) {
        let mut small = new(1);
        assert_eq!(rt; small.step(), 2);
        assert_eq!(rt; small.step(), 4);
        assert_eq!(rt; small.step(), 2);
        assert!(rt; small.serving);
    }

    // An instruction that does not poll stands between.
    #[test]
    fn waits_eight(rt: HostRuntime) {
        let mut small = new(2);
        assert_eq!(rt; small.step(), 2);
        assert_eq!(rt; small.step(), 2);
        assert_eq!(rt; small.step(), 4);
        assert!(rt; !small.serving);
        assert_eq!(rt; small.step(), 2);
        assert!(rt; small.serving);
    }

    // While the service lasts no further call is made; a reset ends it.
    #[test]
    fn serves_once(rt: HostRuntime) {
        let mut small = new(1);
        assert_eq!(rt; small.step() + small.step() + small.step(), 8);
        assert_eq!(rt; small.step(), 4);
        assert!(rt; !small.accepted);
        small.reset();
        assert!(rt; !small.serving);
    }
}
