// The poll: which request is accepted.
ghost use Rattle.std.specs.Prelude.{◌≡◌};
ghost use Rattle.cycles.specs.Poll.{first_of, taken_of, barred_of, poll_of};

use crate::sample::Sample;
use arithmetic::bits::bit;
use records::traces::{Marks, Source};

#[derive(Clone, Copy)]
pub enum Level {
    Low,
    High,
}

// A request, and the level that it has at the poll.
#[derive(Clone, Copy)]
pub struct Request {
    pub source: Source,
    pub level: Level,
}

// The requesting source with the lowest number.
fn first(asking: Sample) -> Option<Source>
    ensures { result ≡ first_of asking }
{
    if asking.external0 {
        Some(Source::External0)
    } else if asking.timer0 {
        Some(Source::Timer0)
    } else if asking.external1 {
        Some(Source::External1)
    } else if asking.timer1 {
        Some(Source::Timer1)
    } else if asking.serial {
        Some(Source::Serial)
    } else {
        None
    }
}

// The highest level, then the lowest source number.
fn taken(asking: Sample, ip: u8) -> Option<Request>
    ensures { result ≡ taken_of asking ip }
{
    let high = first(asking.masked(ip)).map(|source| Request {
        source,
        level: Level::High,
    });
    high.or_else(|| {
        first(asking).map(|source| Request {
            source,
            level: Level::Low,
        })
    })
}

impl Level {
    // Whether a service of this level or a higher one is in progress.
    fn is_barred(self, marks: Marks) -> bool
        ensures { result ≡ barred_of self marks }
    {
        match self {
            Level::Low => marks.low || marks.high,
            Level::High => marks.high,
        }
    }
}

// The accepted request, by the sample of the cycle before.
pub fn poll(sample: Sample, ie: u8, ip: u8, marks: Marks) -> Option<Request>
    ensures { result ≡ poll_of sample ie ip marks }
{
    if !bit(ie, 7) {
        return None;
    }
    taken(sample.masked(ie), ip).filter(|request| !request.level.is_barred(marks))
}
