// The questions asked of the rows: the pair question, the row check and lookup, and the spread.
ghost use Rattle.std.specs.Prelude.{◌≡◌, [], ◌∷◌};
ghost use Rattle.refusal.specs.Told.{verdict_told};
ghost use Rattle.rows.specs.Rooms.{check_row};
ghost use Rattle.rows.specs.Lookup.{row_told};
ghost use Rattle.rows.specs.Pair.{pair_of, pair_told};
ghost use Rattle.rows.specs.Spread.{spread_of, spread_told};
ghost use Rattle.rows.specs.Within.{within_of, within_told};
ghost use Rattle.capi.specs.Outs.{tells};

use entry::Entry;

// The pair question: `found` is 1 with the joins, 0 with 0 for none.
#[unsafe(no_mangle)]
pub extern "C" fn seam_pair(
    n: usize,
    w: usize,
    labels: &[Entry],
    counts: &[u32],
    s: usize,
    t: usize,
    found: &mut u32,
    joins: &mut u64,
    place: &mut u64,
) -> u32
    ensures { tells result place.new (found.new ∷ joins.new ∷ [])
        ≡ pair_told (pair_of n w labels.now counts.now s t) }
{
    capi::row_calls::seam_pair(n, w, labels, counts, s, t, found, joins, place)
}

// The row check.
#[unsafe(no_mangle)]
pub extern "C" fn seam_check_row(
    n: usize,
    w: usize,
    labels: &[Entry],
    counts: &[u32],
    v: usize,
    place: &mut u64,
) -> u32
    ensures { tells result place.new []
        ≡ verdict_told (check_row n w labels.now counts.now v) }
{
    capi::row_calls::seam_check_row(n, w, labels, counts, v, place)
}

// The row lookup: where its part starts in the label room, and its length.
#[unsafe(no_mangle)]
pub extern "C" fn seam_row(
    n: usize,
    w: usize,
    labels: &[Entry],
    counts: &[u32],
    v: usize,
    start: &mut u64,
    count: &mut u64,
    place: &mut u64,
) -> u32
    ensures { tells result place.new (start.new ∷ count.new ∷ [])
        ≡ row_told n w labels.now counts.now v }
{
    capi::row_calls::seam_row(n, w, labels, counts, v, start, count, place)
}

// The spread question.
#[unsafe(no_mangle)]
pub extern "C" fn seam_spread(
    n: usize,
    w: usize,
    labels: &[Entry],
    counts: &[u32],
    spread: &mut u64,
    place: &mut u64,
) -> u32
    ensures { tells result place.new (spread.new ∷ [])
        ≡ spread_told (spread_of n w labels.now counts.now) }
{
    capi::row_calls::seam_spread(n, w, labels, counts, spread, place)
}

// Within so many joins: `yes` is 1 or 0.
#[unsafe(no_mangle)]
pub extern "C" fn seam_within(
    n: usize,
    w: usize,
    labels: &[Entry],
    counts: &[u32],
    s: usize,
    t: usize,
    limit: usize,
    yes: &mut u32,
    place: &mut u64,
) -> u32
    ensures { tells result place.new (yes.new ∷ [])
        ≡ within_told (within_of n w labels.now counts.now s t limit) }
{
    capi::row_calls::seam_within(n, w, labels, counts, s, t, limit, yes, place)
}
