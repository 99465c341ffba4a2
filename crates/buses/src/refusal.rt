ghost use Rattle.std.specs.Prelude.{◌≡◌};
ghost use Rattle.buses.specs.Refusals.{number_of, has_size};

// Why a bus is not built.
#[derive(Clone, Copy, PartialEq, Eq, Debug)]
pub enum Refusal {
    // a memory of no byte or above 65,536 bytes
    MemorySize = 1,
    // a fence whose first address is above its last
    FirstAboveLast = 2,
}

// The number of a refusal.
impl From<Refusal> for u8 {
    ghost from_gives = { λ r n. n ≡ number_of r };

    fn from(refusal: Refusal) -> u8 {
        refusal as u8
    }
}

// A refusal, with what the builder was given, unchanged.
#[derive(Drop)]
pub struct Rejected<T> {
    pub given: T,
    pub refusal: Refusal,
}

// Whether a memory has 1 to 65,536 bytes.
pub(crate) fn has_size(bytes: &[u8]) -> bool
    ensures { result ≡ has_size bytes.now }
{
    (1..=65536).contains(&bytes.len())
}
