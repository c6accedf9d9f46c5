// The questions asked of the rows: the pair question, the row check and lookup, and the spread.
ghost use Rattle.std.specs.Prelude.{◌≡◌, [], ◌∷◌};
ghost use Rattle.refusal.specs.Told.{verdict_told};
ghost use Rattle.rows.specs.Rooms.{check_row};
ghost use Rattle.rows.specs.Lookup.{row_told};
ghost use Rattle.rows.specs.Pair.{pair_of, pair_told};
ghost use Rattle.rows.specs.Spread.{spread_of, spread_told};
ghost use Rattle.rows.specs.Within.{within_of, within_told};
ghost use Rattle.capi.specs.Outs.{tells};

use crate::tell::told;
use entry::Entry;

// The pair question: `found` is 1 with the joins, 0 with 0 for none.
pub fn seam_pair(
    n: usize,
    w: usize,
    labels: &[Entry],
    counts: &[u32],
    s: usize,
    t: usize,
    found: &mut u32,
    joins: &mut u64,
    place: &mut u64,
) -> u32
    ensures { tells result place.new (found.new ∷ joins.new ∷ [])
        ≡ pair_told (pair_of n w labels.now counts.now s t) }
{
    let answer = rows::pair::pair(n, w, labels, counts, s, t);
    let sum = answer.unwrap_or(None);
    *found = u32::from(sum.is_some());
    *joins = sum.unwrap_or(0) as u64;
    told(&answer, place)
}

// The row check.
pub fn seam_check_row(
    n: usize,
    w: usize,
    labels: &[Entry],
    counts: &[u32],
    v: usize,
    place: &mut u64,
) -> u32
    ensures { tells result place.new []
        ≡ verdict_told (check_row n w labels.now counts.now v) }
{
    told(&rows::check::check_row(n, w, labels, counts, v), place)
}

// The row lookup: where its part starts in the label room, and its length.
pub fn seam_row(
    n: usize,
    w: usize,
    labels: &[Entry],
    counts: &[u32],
    v: usize,
    start: &mut u64,
    count: &mut u64,
    place: &mut u64,
) -> u32
    ensures { tells result place.new (start.new ∷ count.new ∷ [])
        ≡ row_told n w labels.now counts.now v }
{
    let checked = rows::check::check_row(n, w, labels, counts, v);
    match checked {
        Ok(()) => {
            *start = (v * w) as u64;
            *count = counts[v] as u64;
        }
        Err(_) => {
            *start = 0;
            *count = 0;
        }
    }
    told(&checked, place)
}

// The spread question.
pub fn seam_spread(
    n: usize,
    w: usize,
    labels: &[Entry],
    counts: &[u32],
    spread: &mut u64,
    place: &mut u64,
) -> u32
    ensures { tells result place.new (spread.new ∷ [])
        ≡ spread_told (spread_of n w labels.now counts.now) }
{
    let answer = rows::spread::spread(n, w, labels, counts);
    *spread = answer.unwrap_or(0) as u64;
    told(&answer, place)
}

// Within so many joins: `yes` is 1 or 0.
pub fn seam_within(
    n: usize,
    w: usize,
    labels: &[Entry],
    counts: &[u32],
    s: usize,
    t: usize,
    limit: usize,
    yes: &mut u32,
    place: &mut u64,
) -> u32
    ensures { tells result place.new (yes.new ∷ [])
        ≡ within_told (within_of n w labels.now counts.now s t limit) }
{
    let answer = rows::within::within(n, w, labels, counts, s, t, limit);
    *yes = u32::from(answer.unwrap_or(false));
    told(&answer, place)
}
