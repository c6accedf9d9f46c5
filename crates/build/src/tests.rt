// The build's tests before any walk, 1 to 5: its own SIZE over all arguments, its own LENGTH over all rooms, and then the
// tests of the links and of the order.
ghost use Rattle.std.specs.Prelude.{◌≡◌, ◌≤◌};
ghost use Rattle.build.specs.Build.{build_sizes, build_rooms, build_tests};

use refusal::sizes::{places_fit, sizes_fit};
use refusal::{Reason, Refusal, test};

// n, W, k and the number of neighbour places are in range.
#[tactic(auto, unfolding(crate::specs::Build::build_sizes))]
pub fn build_sizes(n: usize, w: usize, k: usize, places: usize) -> bool
    ensures { result ≡ build_sizes n w k places }
{
    sizes_fit(n, w) && k <= n && places_fit(places)
}

// Every room has its exact length.
#[tactic(auto, unfolding(crate::specs::Build::build_rooms))]
pub fn build_rooms(
    n: usize,
    w: usize,
    starts: usize,
    order: usize,
    labels: usize,
    counts: usize,
    met: usize,
    queue: usize,
) -> bool
    requires { (n ≤ 4096) × (w ≤ 256) }
    ensures { result ≡ build_rooms n w starts order labels counts met queue }
{
    starts == n + 1 && order == n && labels == n * w && counts == n && met == n && queue == n
}

// Tests 1 to 5; the four rooms that the build fills by their lengths.
pub fn tests(
    n: usize,
    w: usize,
    k: usize,
    starts: &[u32],
    places: &[u32],
    order: &[u32],
    labels: usize,
    counts: usize,
    met: usize,
    queue: usize,
) -> Result<(), Refusal>
    ensures { result
        ≡ build_tests n w k starts.now places.now order.now labels
        counts met queue }
{
    test(build_sizes(n, w, k, places.len()), Reason::Size, 0)?;
    let long = build_rooms(n, w, starts.len(), order.len(), labels, counts, met, queue);
    test(long, Reason::Length, 0)?;
    links::check_links(n, starts, places)?;
    links::check_order(n, order)
}
