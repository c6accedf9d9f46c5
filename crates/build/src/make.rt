// The build once its tests are passed: the rooms cleared, the walks, and the entries counted.
ghost use Rattle.std.specs.Prelude.{◌≡◌, length};
ghost use Rattle.theory.specs.Plain.{row_by};
ghost use Rattle.build.specs.Inner.{MakeIn};
ghost use Rattle.build.specs.Build.{walks_test, build_outcome, after_walks};

use crate::run::walks;
use entry::Entry;
use refusal::Refusal;
use rows::rooms::total;

// All walks, and the number of entries; where a walk is refused, every room 0.
pub fn make(
    w: usize,
    k: usize,
    starts: &[u32],
    places: &[u32],
    order: &[u32],
    labels: &mut [Entry],
    counts: &mut [u32],
    met: &mut [u32],
    queue: &mut [u32],
) -> Result<usize, Refusal>
    requires { MakeIn (length counts.old) w k starts.now places.now order.now labels.old
        counts.old met.old queue.old }
    ensures { build_outcome result labels.new counts.new met.new
        queue.new
        ≡ after_walks (length counts.old) w
        (row_by (length counts.old) starts.now places.now
        order.now k)
        (walks_test (length counts.old) w k starts.now places.now
        order.now) }
{
    labels.fill(0);
    counts.fill(0);
    met.fill(0);
    queue.fill(0);
    if let Err(refusal) = walks(w, k, starts, places, order, labels, counts, met, queue) {
        labels.fill(0);
        counts.fill(0);
        return Err(refusal);
    }
    Ok(total(counts))
}
