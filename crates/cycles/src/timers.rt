// The two timers in one machine cycle. The new pins of port 3 are an argument of their own: Timers holds those of the cycle before, and
// a struct of both would be no plainer.
ghost use Rattle.std.specs.Prelude.{◌≡◌, ℕ, Bool};
ghost use Rattle.cycles.specs.declared.timers.Mode.{Mode};
ghost use Rattle.cycles.specs.Timers.{mode_of, count_byte, count_thirteen, count_sixteen, count_reload, count_of, count_entry, falls_of, runs_of, is_due, is_split, timer0_of, upper0_of, counts1_of, timer1_of, timers_of};

use arithmetic::addresses::word;
use arithmetic::bits::{bit, with_bit};
use core51::state::{Timer, Timers};

// How a timer counts: the modes 0 to 3.
#[derive(Clone, Copy)]
pub(crate) enum Mode {
    Thirteen,
    Sixteen,
    Reload,
    Split,
}

// The mode in the low two bits of a byte.
impl From<u8> for Mode {
    ghost from_gives = { λ bits mode. mode ≡ mode_of bits };

    fn from(bits: u8) -> Self {
        match bits % 4 {
            0 => Mode::Thirteen,
            1 => Mode::Sixteen,
            2 => Mode::Reload,
            _ => Mode::Split,
        }
    }
}

// One byte alone. Each count answers whether it overflowed.
fn count_byte(byte: &mut u8) -> bool
    ensures { (result, byte.new) ≡ count_byte byte.old }
{
    *byte = byte.wrapping_add(1);
    *byte == 0
}

// Mode 0: TH above the low five bits of TL, whose top three stay.
fn count_thirteen(timer: &mut Timer) -> bool
    ensures { (result, timer.new) ≡ count_thirteen timer.old }
{
    let count = (timer.high as u16 * 32 + timer.low as u16 % 32 + 1) % 8192;
    timer.low = timer.low / 32 * 32 + (count % 32) as u8;
    timer.high = (count / 32) as u8;
    count == 0
}

// Mode 1: TH above TL.
fn count_sixteen(timer: &mut Timer) -> bool
    ensures { (result, timer.new) ≡ count_sixteen timer.old }
{
    let count = word(timer.high, timer.low).wrapping_add(1);
    [timer.high, timer.low] = count.to_be_bytes();
    count == 0
}

// Mode 2: TL, reloaded from TH on overflow.
fn count_reload(timer: &mut Timer) -> bool
    ensures { (result, timer.new) ≡ count_reload timer.old }
{
    let overflow = count_byte(&mut timer.low);
    if overflow {
        timer.low = timer.high;
    }
    overflow
}

impl Mode {
    // One count of a timer; mode 3 counts TL alone.
    fn count(self, timer: &mut Timer) -> bool
        ensures { (result, timer.new) ≡ count_of self timer.old }
    {
        match self {
            Mode::Thirteen => count_thirteen(timer),
            Mode::Sixteen => count_sixteen(timer),
            Mode::Reload => count_reload(timer),
            Mode::Split => count_byte(&mut timer.low),
        }
    }
}

// One timer of the table is lent and counted, through `&mut self` of the timers: a rule of the project, a form that was asked for
// (docs/DECISIONS.md). It is a trait, since Timers is a type of another crate.
trait Counting {
    ghost counted: { ℕ → Mode → Self → Bool × Self };

    // Counts timer n in a mode, and answers whether it overflowed.
    fn count(&mut self, n: usize, mode: Mode) -> bool
        ensures { (result, self.new) ≡ counted n mode self.old };
}

impl Counting for Timers {
    ghost counted = { count_entry };

    fn count(&mut self, n: usize, mode: Mode) -> bool {
        mode.count(&mut self.table[n % 2])
    }
}

// Whether a pin was high in the cycle before and is low.
pub(crate) fn falls(old: u8, new: u8, pin: u8) -> bool
    ensures { result ≡ falls_of old new pin }
{
    bit(old, pin) && !bit(new, pin)
}

// Where the bits of a timer lie: its run bit in TCON, GATE and C/T in TMOD, and its INT pin and the pin that it counts in port 3.
struct TimerBits {
    run: u8,
    gate: u8,
    external: u8,
    int_pin: u8,
    counted_pin: u8,
}

const TIMER0: TimerBits = TimerBits {
    run: 4,
    gate: 3,
    external: 2,
    int_pin: 2,
    counted_pin: 4,
};

const TIMER1: TimerBits = TimerBits {
    run: 6,
    gate: 7,
    external: 6,
    int_pin: 3,
    counted_pin: 5,
};

impl TimerBits {
    // Whether the timer runs: its run bit is 1, and GATE is 0 or its INT pin high.
    fn runs(&self, timers: &Timers, pins: u8) -> bool
        ensures { result ≡ runs_of self.now pins timers.now }
    {
        bit(timers.tcon, self.run) && (!bit(timers.tmod, self.gate) || bit(pins, self.int_pin))
    }

    // Whether the timer counts in this cycle if it runs: always, or with C/T at 1 if its pin falls.
    fn is_due(&self, timers: &Timers, pins: u8) -> bool
        ensures { result ≡ is_due self.now pins timers.now }
    {
        !bit(timers.tmod, self.external) || falls(timers.pins, pins, self.counted_pin)
    }
}

// Timer 0, at the pins of port 3.
fn timer0(timers: &mut Timers, pins: u8)
    ensures { timers.new ≡ timer0_of pins timers.old }
{
    if TIMER0.runs(timers, pins) && TIMER0.is_due(timers, pins) {
        let mode = Mode::from(timers.tmod);
        if timers.count(0, mode) {
            timers.tcon = with_bit(timers.tcon, 5, true);
        }
    }
}

// Whether a byte has mode 3 in its low two bits, as TMOD has while TL and TH of timer 0 count apart.
pub(crate) fn is_split(bits: u8) -> bool
    ensures { result ≡ is_split bits }
{
    matches!(Mode::from(bits), Mode::Split)
}

// TH of timer 0 in mode 3, under TR1.
fn upper0(timers: &mut Timers)
    ensures { timers.new ≡ upper0_of timers.old }
{
    if is_split(timers.tmod) && bit(timers.tcon, 6) && count_byte(&mut timers.table[0].high) {
        timers.tcon = with_bit(timers.tcon, 7, true);
    }
}

// Whether timer 1 counts in this cycle: not in mode 3, and whatever TR1 and GATE are while timer 0 is in mode 3.
fn counts1(timers: &Timers, pins: u8) -> bool
    ensures { result ≡ counts1_of pins timers.now }
{
    !is_split(timers.tmod / 16)
        && (is_split(timers.tmod) || TIMER1.runs(timers, pins))
        && TIMER1.is_due(timers, pins)
}

// Timer 1, which sets no flag while timer 0 is in mode 3. No second instance of timer 0's function, since that mode changes its rules alone.
fn timer1(timers: &mut Timers, pins: u8)
    ensures { timers.new ≡ timer1_of pins timers.old }
{
    if counts1(timers, pins) {
        let mode = Mode::from(timers.tmod / 16);
        if timers.count(1, mode) && !is_split(timers.tmod) {
            timers.tcon = with_bit(timers.tcon, 7, true);
        }
    }
}

// Timer 0, then timer 1.
pub(crate) fn count_timers(timers: &mut Timers, pins: u8)
    ensures { timers.new ≡ timers_of pins timers.old }
{
    timer0(timers, pins);
    upper0(timers);
    timer1(timers, pins);
}
