// The questions on targets. A C caller's records are taken apart first, so that what asks and tells is handed numbers.
ghost use Rattle.std.specs.Prelude.{◌≡◌, [], ◌∷◌};
ghost use Rattle.targets.specs.Inner.{frames_in};
ghost use Rattle.targets.specs.Nearest.{nearest_of, nearest_told};
ghost use Rattle.targets.specs.Sixteen.{sixteen_of, sixteen_told};
ghost use Rattle.targets.specs.Targets.{frames_of};
ghost use Rattle.capi.specs.Outs.{tells};

use crate::tell::told;
use entry::Entry;
use targets::record::{Listed, Target, take_apart};

// Nearest target, of records taken apart.
fn tell_nearest(
    n: usize,
    w: usize,
    labels: &[Entry],
    counts: &[u32],
    asked: usize,
    listed: Listed,
    found: &mut u32,
    target: &mut u64,
    place: &mut u64,
) -> u32
    ensures { tells result place.new (found.new ∷ target.new ∷ [])
        ≡ nearest_told (nearest_of n w labels.now counts.now asked (frames_in listed)) }
{
    let answer = targets::nearest::nearest_listed(n, w, labels, counts, asked, listed);
    let record = answer.unwrap_or(None);
    *found = u32::from(record.is_some());
    *target = record.unwrap_or(0) as u64;
    told(&answer, place)
}

// The sixteen counts, of records taken apart.
fn tell_sixteen(
    n: usize,
    w: usize,
    labels: &[Entry],
    counts: &[u32],
    listed: Listed,
    sixteen: &mut [u64; 16],
    place: &mut u64,
) -> u32
    ensures { tells result place.new sixteen.new
        ≡ sixteen_told (sixteen_of n w labels.now counts.now (frames_in listed)) }
{
    let answer = targets::sixteen::sixteen_listed(n, w, labels, counts, listed);
    *sixteen = answer.unwrap_or([0; 16]);
    told(&answer, place)
}

// Nearest target: `found` is 1 with the place of the record in the list, 0 with 0 for none.
pub fn seam_nearest(
    n: usize,
    w: usize,
    labels: &[Entry],
    counts: &[u32],
    asked: usize,
    targets: &[Target],
    found: &mut u32,
    target: &mut u64,
    place: &mut u64,
) -> u32
    ensures { tells result place.new (found.new ∷ target.new ∷ [])
        ≡ nearest_told
        (nearest_of n w labels.now counts.now asked
        (frames_of targets.now)) }
{
    tell_nearest(
        n,
        w,
        labels,
        counts,
        asked,
        take_apart(targets),
        found,
        target,
        place,
    )
}

// The sixteen counts.
pub fn seam_sixteen(
    n: usize,
    w: usize,
    labels: &[Entry],
    counts: &[u32],
    targets: &[Target],
    sixteen: &mut [u64; 16],
    place: &mut u64,
) -> u32
    ensures { tells result place.new sixteen.new
        ≡ sixteen_told
        (sixteen_of n w labels.now counts.now (frames_of targets.now)) }
{
    tell_sixteen(n, w, labels, counts, take_apart(targets), sixteen, place)
}
