// The sample of the five interrupt requests.
ghost use Rattle.std.specs.Prelude.{◌≡◌};
ghost use Rattle.cycles.specs.Sample.{sample_of, masked_of};

use arithmetic::bits::bit;

// Which of the five sources request; by default none.
#[derive(Clone, Copy, Default)]
pub struct Sample {
    pub external0: bool,
    pub timer0: bool,
    pub external1: bool,
    pub timer1: bool,
    pub serial: bool,
}

// The five flags in TCON and SCON, whatever is enabled.
pub fn take_sample(tcon: u8, scon: u8) -> Sample
    ensures { result ≡ sample_of tcon scon }
{
    Sample {
        external0: bit(tcon, 1),
        timer0: bit(tcon, 5),
        external1: bit(tcon, 3),
        timer1: bit(tcon, 7),
        serial: bit(scon, 0) || bit(scon, 1),
    }
}

impl Sample {
    // The requests whose bit is 1 in IE or IP.
    pub(crate) fn masked(self, byte: u8) -> Sample
        ensures { result ≡ masked_of self byte }
    {
        Sample {
            external0: self.external0 & bit(byte, 0),
            timer0: self.timer0 & bit(byte, 1),
            external1: self.external1 & bit(byte, 2),
            timer1: self.timer1 & bit(byte, 3),
            serial: self.serial & bit(byte, 4),
        }
    }
}
