// The build.
ghost use Rattle.std.specs.Prelude.{◌≡◌, [], ◌∷◌};
ghost use Rattle.build.specs.Build.{build_of};
ghost use Rattle.capi.specs.Outs.{outs, tells, build_outs};

use entry::Entry;

// `entries` is the number of entries of all rows.
#[unsafe(no_mangle)]
pub extern "C" fn seam_build(
    n: usize,
    w: usize,
    k: usize,
    starts: &[u32],
    places: &[u32],
    order: &[u32],
    labels: &mut [Entry],
    counts: &mut [u32],
    met: &mut [u32],
    queue: &mut [u32],
    entries: &mut u64,
    place: &mut u64,
) -> u32
    ensures { outs (tells result place.new (entries.new ∷ []))
        (labels.new ∷ counts.new ∷ met.new ∷ queue.new ∷ [])
        ≡ build_outs
        (build_of n w k starts.now places.now order.now
        labels.old counts.old met.old queue.old) }
{
    capi::build_calls::seam_build(
        n, w, k, starts, places, order, labels, counts, met, queue, entries, place,
    )
}
