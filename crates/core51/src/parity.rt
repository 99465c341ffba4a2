// The core: a chip whose PSW tells the parity of A.
ghost use Rattle.std.specs.Prelude.{◌≡◌, ◌%◌, count_ones};

use crate::state::Chip;

// Bit 0 of PSW is 1 exactly when A has an odd number of ones.
#[derive(Drop)]
pub struct Core {
    pub chip: Chip,
    ghost parity: { chip.registers.psw % 2 ≡ count_ones chip.registers.a % 2 },
}
