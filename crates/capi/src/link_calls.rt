// The links and the hub order: both tests, and the two orders.
ghost use Rattle.std.specs.Prelude.{◌≡◌, [], ◌∷◌};
ghost use Rattle.refusal.specs.Told.{verdict_told};
ghost use Rattle.links.specs.Links.{check_links};
ghost use Rattle.links.specs.Order.{check_order, degree_of, scattered_of};
ghost use Rattle.capi.specs.Outs.{outs, tells, order_outs};

use crate::tell::told;

// Check links.
pub fn seam_check_links(n: usize, starts: &[u32], places: &[u32], place: &mut u64) -> u32
    ensures { tells result place.new []
        ≡ verdict_told (check_links n starts.now places.now) }
{
    told(&links::check_links(n, starts, places), place)
}

// Check order.
pub fn seam_check_order(n: usize, order: &[u32], place: &mut u64) -> u32
    ensures { tells result place.new [] ≡ verdict_told (check_order n order.now) }
{
    told(&links::check_order(n, order), place)
}

// Order by degree.
pub fn seam_order_by_degree(
    n: usize,
    starts: &[u32],
    places: &[u32],
    order: &mut [u32],
    place: &mut u64,
) -> u32
    ensures { outs (tells result place.new []) (order.new ∷ [])
        ≡ order_outs (degree_of n starts.now places.now order.old) }
{
    told(&links::order_by_degree(n, starts, places, order), place)
}

// Order scattered.
pub fn seam_order_scattered(
    n: usize,
    starts: &[u32],
    places: &[u32],
    order: &mut [u32],
    place: &mut u64,
) -> u32
    ensures { outs (tells result place.new []) (order.new ∷ [])
        ≡ order_outs (scattered_of n starts.now places.now order.old) }
{
    told(&links::order_scattered(n, starts, places, order), place)
}
