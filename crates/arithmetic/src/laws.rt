// What the definitions mean, each law proved for all bytes.
ghost use Rattle.arithmetic.specs.Laws.{SumsOverflow, DifferencesOverflow, DecimalSums, BitsRotate, SwapRotates, BitsStand, FlagsStand, SumCases};

// Overflow says that a signed result does not fit, and decimal adjustment gives the decimal sum.
pub fn sums_mean()
    ensures sums { SumsOverflow }
    ensures differences { DifferencesOverflow }
    ensures decimal { DecimalSums }
    ensures cases { SumCases }
{}

// A bit that is put reads back, a flag stands where it belongs, and a rotate moves every bit by one place.
pub fn bits_mean()
    ensures bits { BitsStand }
    ensures flags { FlagsStand }
    ensures rotates { BitsRotate }
    ensures swap { SwapRotates }
{}
