// The places that an instruction names, what they hold, and the one byte that it may put back.
ghost use Rattle.std.specs.Prelude.{◌≡◌};
ghost use Rattle.core51.specs.Operands.{is_indirect, named_of, places_of, held_of, read_of, committed_of};

use crate::fault::Fault;
use crate::places::Place;
use crate::state::{Chip, Registers};
use boards::board::Board;
use instructions::Operand;
use instructions::operands::Operands;

// The place that is written, and the place that is only read.
pub type Places = Operands<Place>;

fn is_indirect(operand: Option<Operand>) -> bool
    ensures { result ≡ is_indirect operand }
{
    matches!(operand, Some(Operand::Indirect(_)))
}

impl Registers {
    fn named(&self, operand: Option<Operand>) -> Result<Option<Place>, Fault>
        ensures { result ≡ named_of self.now operand }
    {
        operand.map(|operand| self.place(operand)).transpose()
    }

    // The places of both operands. An indirect target comes last: a missing register is told before missing RAM.
    pub fn places(&self, operands: Operands<Operand>) -> Result<Places, Fault>
        ensures { result ≡ places_of self.now operands }
    {
        if is_indirect(operands.target) {
            let source = self.named(operands.source)?;
            let target = self.named(operands.target)?;
            Ok(Operands { target, source })
        } else {
            let target = self.named(operands.target)?;
            let source = self.named(operands.source)?;
            Ok(Operands { target, source })
        }
    }
}

impl Chip {
    // What a named place holds; of a port the latch.
    pub fn held(&self, place: Option<Place>) -> u8
        ensures { result ≡ held_of self.now place }
    {
        place.map_or(0, |place| self.latch(place))
    }

    // What a named place shows; of a port the pins.
    pub fn read<D: Board>(&self, place: Option<Place>, board: &D) -> u8
        ensures { result ≡ read_of (D.pins board.now) self.now place }
    {
        place.map_or(0, |place| self.pins(place, board))
    }

    // Puts the byte that an instruction answers into the place that it names.
    pub fn commit(&mut self, place: Option<Place>, byte: Option<u8>)
        ensures { self.new ≡ committed_of self.old place byte }
    {
        if let (Some(place), Some(byte)) = (place, byte) {
            self.write(place, byte);
        }
    }
}
