// The questions on targets.
ghost use Rattle.std.specs.Prelude.{◌≡◌, [], ◌∷◌};
ghost use Rattle.targets.specs.Nearest.{nearest_of, nearest_told};
ghost use Rattle.targets.specs.Sixteen.{sixteen_of, sixteen_told};
ghost use Rattle.targets.specs.Targets.{frames_of};
ghost use Rattle.capi.specs.Outs.{tells};

use entry::Entry;
use targets::record::Target;

// Nearest target: `found` is 1 with the place of the record in the list, 0 with 0 for none.
#[unsafe(no_mangle)]
pub extern "C" fn seam_nearest(
    n: usize,
    w: usize,
    labels: &[Entry],
    counts: &[u32],
    asked: usize,
    targets: &[Target],
    found: &mut u32,
    target: &mut u64,
    place: &mut u64,
) -> u32
    ensures { tells result place.new (found.new ∷ target.new ∷ [])
        ≡ nearest_told
        (nearest_of n w labels.now counts.now asked
        (frames_of targets.now)) }
{
    capi::target_calls::seam_nearest(n, w, labels, counts, asked, targets, found, target, place)
}

// The sixteen counts.
#[unsafe(no_mangle)]
pub extern "C" fn seam_sixteen(
    n: usize,
    w: usize,
    labels: &[Entry],
    counts: &[u32],
    targets: &[Target],
    sixteen: &mut [u64; 16],
    place: &mut u64,
) -> u32
    ensures { tells result place.new sixteen.new
        ≡ sixteen_told
        (sixteen_of n w labels.now counts.now (frames_of targets.now)) }
{
    capi::target_calls::seam_sixteen(n, w, labels, counts, targets, sixteen, place)
}
