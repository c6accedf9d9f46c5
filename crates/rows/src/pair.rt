// The pair question: the least sum of joins over the ranks found in both rows. The two rows are tested once each and then
// merged; a frame's row with itself is read like any other pair.
ghost use Rattle.std.specs.Prelude.{◌≡◌};
ghost use Rattle.rows.specs.Pair.{pair_of, pair_told};

use crate::asked::rows_asked;
use crate::merge::merge;
use entry::Entry;
use refusal::Refusal;

// The answer for (s,t): a number of joins, none where no rank is shared, or a refusal.
pub fn pair(
    n: usize,
    w: usize,
    labels: &[Entry],
    counts: &[u32],
    s: usize,
    t: usize,
) -> Result<Option<usize>, Refusal>
    ensures answer { result ≡ pair_of n w labels.now counts.now s t }
    ensures numbers { pair_told result ≡ pair_told (pair_of n w labels.now counts.now s t) }
{
    let (first, second) = rows_asked(n, w, labels, counts, s, t)?;
    Ok(merge(first, second).map(|best| best.sum))
}
