// The build: walks in rank order from empty rows.
#![tactic(auto)]

ghost use Rattle.std.specs.Prelude.{◌≡◌};
ghost use Rattle.build.specs.Build.{build_outcome, build_of};

use entry::Entry;
use refusal::Refusal;

mod make;
mod run;
mod tests;

// The build up to stop k, by the row rule. What the rooms hold before does not matter. A test refused leaves them as lent;
// a walk refused leaves labels, counts and work rooms all 0.
pub fn build(
    n: usize,
    w: usize,
    k: usize,
    starts: &[u32],
    places: &[u32],
    order: &[u32],
    labels: &mut [Entry],
    counts: &mut [u32],
    met: &mut [u32],
    queue: &mut [u32],
) -> Result<usize, Refusal>
    ensures { build_outcome result labels.new counts.new met.new
        queue.new
        ≡ build_of n w k starts.now places.now order.now
        labels.old
        counts.old met.old queue.old }
{
    tests::tests(
        n,
        w,
        k,
        starts,
        places,
        order,
        labels.len(),
        counts.len(),
        met.len(),
        queue.len(),
    )?;
    make::make(w, k, starts, places, order, labels, counts, met, queue)
}
