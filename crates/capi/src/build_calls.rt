// The build: the rooms are the caller's, labels and counts for the index, `met` and `queue` to work in.
ghost use Rattle.std.specs.Prelude.{◌≡◌, [], ◌∷◌};
ghost use Rattle.build.specs.Build.{build_of};
ghost use Rattle.capi.specs.Outs.{outs, tells, build_outs};

use crate::tell::told;
use entry::Entry;

// `entries` is the number of entries of all rows.
pub fn seam_build(
    n: usize,
    w: usize,
    k: usize,
    starts: &[u32],
    places: &[u32],
    order: &[u32],
    labels: &mut [Entry],
    counts: &mut [u32],
    met: &mut [u32],
    queue: &mut [u32],
    entries: &mut u64,
    place: &mut u64,
) -> u32
    ensures { outs (tells result place.new (entries.new ∷ []))
        (labels.new ∷ counts.new ∷ met.new ∷ queue.new ∷ [])
        ≡ build_outs
        (build_of n w k starts.now places.now order.now
        labels.old counts.old met.old queue.old) }
{
    let built = build::build(n, w, k, starts, places, order, labels, counts, met, queue);
    *entries = built.unwrap_or(0) as u64;
    told(&built, place)
}
