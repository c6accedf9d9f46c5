// Links and hub order: the tests that stand before everything (1 to 5), the order by degree and the order scattered.
#![tactic(auto)]

ghost use Rattle.std.specs.Prelude.{◌≡◌};
ghost use Rattle.refusal.specs.Told.{verdict_told};
ghost use Rattle.links.specs.Links.{check_links};
ghost use Rattle.links.specs.Order.{check_order, ordered, ordered_by, degree_of, scattered_of};
ghost use Rattle.links.specs.Inner.{block_tests};

use crate::tie::{Own, Scattered, Tie};
use refusal::sizes::frames_fit;
use refusal::{Reason, Refusal, test};

mod once;
mod ranks;
mod scan;
mod sizes;
mod tie;

// Tests 1 to 4 on n frames, their start positions and neighbour places; LENGTH also where not all other rooms are as `long`
// as they have to be.
fn block_tests(n: usize, starts: &[u32], places: &[u32], long: bool) -> Result<(), Refusal>
    ensures { result ≡ block_tests n starts.now places.now long }
{
    sizes::tests(n, starts, places)?;
    test(long, Reason::Length, 0)?;
    scan::tests(n, starts, places)
}

// Check links: tests 1 to 4. There is no other room.
pub fn check_links(n: usize, starts: &[u32], places: &[u32]) -> Result<(), Refusal>
    ensures answer { result ≡ check_links n starts.now places.now }
    ensures numbers { verdict_told result ≡ verdict_told (check_links n starts.now places.now) }
{
    block_tests(n, starts, places, true)
}

// Check order: tests 1, 2 and 5 on an order of n frames.
pub fn check_order(n: usize, order: &[u32]) -> Result<(), Refusal>
    ensures answer { result ≡ check_order n order.now }
    ensures numbers { verdict_told result ≡ verdict_told (check_order n order.now) }
{
    test(frames_fit(n), Reason::Size, 0)?;
    test(order.len() == n, Reason::Length, 0)?;
    once::each_once(n, order)
}

// Tests 1 to 4, then the order room filled, ties broken by `T`; as lent where a test refuses.
fn order_by<T: Tie>(
    n: usize,
    starts: &[u32],
    places: &[u32],
    order: &mut [u32],
) -> Result<(), Refusal>
    ensures { ordered result order.new
        ≡ ordered_by T.number n starts.now places.now order.old }
{
    let long = order.len() == n;
    block_tests(n, starts, places, long)?;
    ranks::fill::<T>(n, starts, order);
    Ok(())
}

// Order by degree: more links first, of equal degree the lower frame number.
pub fn order_by_degree(
    n: usize,
    starts: &[u32],
    places: &[u32],
    order: &mut [u32],
) -> Result<(), Refusal>
    ensures answer { ordered result order.new
        ≡ degree_of n starts.now places.now order.old }
    ensures numbers { verdict_told result
        ≡ verdict_told
        (degree_of n starts.now places.now order.old).verdict }
{
    order_by::<Own>(n, starts, places, order)
}

// Order scattered: more links first, of equal degree the lower scattered number, v * 2,531 mod 4,096.
pub fn order_scattered(
    n: usize,
    starts: &[u32],
    places: &[u32],
    order: &mut [u32],
) -> Result<(), Refusal>
    ensures answer { ordered result order.new
        ≡ scattered_of n starts.now places.now order.old }
    ensures numbers { verdict_told result
        ≡ verdict_told
        (scattered_of n starts.now places.now order.old).verdict }
{
    order_by::<Scattered>(n, starts, places, order)
}
