// Tests 1 and 2 on a block: sizes, then the length of the start positions.
ghost use Rattle.std.specs.Prelude.{◌≡◌, ◌&&◌};
ghost use Rattle.refusal.specs.Sizes.{frames_fit, places_fit};
ghost use Rattle.links.specs.Links.{sizes_test};

use refusal::sizes::{frames_fit, places_fit};
use refusal::{Reason, Refusal, test};

// Whether n and the number of neighbour places are in range.
pub fn block_fits(n: usize, count: usize) -> bool
    ensures { result ≡ frames_fit n && places_fit count }
{
    frames_fit(n) && places_fit(count)
}

// Tests 1 and 2.
pub fn tests(n: usize, starts: &[u32], places: &[u32]) -> Result<(), Refusal>
    ensures { result ≡ sizes_test n starts.now places.now }
{
    test(block_fits(n, places.len()), Reason::Size, 0)?;
    test(starts.len() == n + 1, Reason::Length, 0)
}
