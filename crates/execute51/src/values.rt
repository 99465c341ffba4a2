// What an instruction works with.
ghost use Rattle.std.specs.Prelude.{◌≡◌};
ghost use Rattle.execute51.specs.Jumps.{goes_of};
ghost use Rattle.execute51.specs.Values.{value_of};

use arithmetic::addresses::relative;
use instructions::Source;

// The address after the instruction, and the bytes of its target and its source, before it.
#[derive(Clone, Copy)]
pub(crate) struct Inputs {
    pub next: u16,
    pub target: u8,
    pub source: u8,
}

impl Inputs {
    // The byte of a source: a constant, or what the named place shows.
    pub(crate) fn value(self, source: Source) -> u8
        ensures { result ≡ value_of source self.source }
    {
        match source {
            Source::Named(_) => self.source,
            Source::Immediate(constant) => constant,
        }
    }

    // The next address: that of a relative jump if it is taken.
    pub(crate) fn jump(self, offset: u8, taken: bool) -> u16
        ensures { result ≡ goes_of self.next offset taken }
    {
        if taken {
            relative(self.next, offset)
        } else {
            self.next
        }
    }
}
