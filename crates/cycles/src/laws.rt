// What the definitions come to at some edges.
ghost use Rattle.std.specs.Prelude.{◌≡◌, Some};
ghost use Rattle.cycles.specs.Laws.{Overflows, called_by};

// Modes 0 and 2 overflow; of IE0 and TF1, both sampled and enabled, the one at the high level is called, and at one level IE0.
pub fn examples_hold()
    ensures overflow { Overflows }
    ensures higher { called_by 0x82 0x89 0x08 ≡ Some 0x001b }
    ensures alike { called_by 0x82 0x89 0x00 ≡ Some 0x0003 }
{}
