ghost use Rattle.std.specs.Prelude.{◌≡◌};
ghost use Rattle.records.specs.Refusal.{number_of};

// Why a record, a log or a file of records is refused.
#[derive(Clone, Copy, PartialEq, Eq, Debug)]
pub enum Refusal {
    FileLength = 3,
    FieldOutsideLayout = 4,
    CycleBelowTheOneBefore = 5,
    TooLittleRoom = 7,
    LogFull = 8,
}

// The number of a refusal.
impl From<Refusal> for u8 {
    ghost from_gives = { λ r n. n ≡ number_of r };

    fn from(refusal: Refusal) -> u8 {
        refusal as u8
    }
}
