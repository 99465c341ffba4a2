ghost use Rattle.std.specs.Prelude.{◌≡◌, replicate, Ok};
ghost use Rattle.outcome.specs.Outcome.{then};
ghost use Rattle.buses.specs.Layers.{shifted, paged, shift_memory, page_memory, fence_memory};
ghost use Rattle.buses.specs.Refusals.{meaning_of, fence_of};

use buses::{Bus, Fence, Page, Rejected, Shift};

// A fence, on it a page, on that a shift.
pub fn shift_page_fence<B: Bus>(
    bus: B,
    first: u16,
    last: u16,
    page: u8,
    by: u16,
) -> Result<Shift<Page<Fence<B>>>, Rejected<B>>
    ensures { meaning_of (shift_memory (page_memory (fence_memory B.memory))) result ≡ then (fence_of B.memory bus first last) (λ m. Ok (shifted by (paged page (replicate 256 0) m))) }
{
    Ok(Shift::new(Page::new(Fence::new(bus, first, last)?, page), by))
}
