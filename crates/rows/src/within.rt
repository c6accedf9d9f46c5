// Within so many joins? The walk along the two rows, whose turns are the merge's, stops at the first shared rank whose sum is at
// most the limit: the turn that finds it is the last.
ghost use Rattle.std.specs.Prelude.{◌≡◌, ◌<◌};
ghost use Rattle.rows.specs.Inner.{no_sum, Rises, some_within};
ghost use Rattle.rows.specs.Meetings.{meetings};
ghost use Rattle.rows.specs.Within.{within_of, within_told};

use crate::asked::rows_asked;
use crate::merge::{NO_SUM, Turn};
use entry::Entry;
use refusal::Refusal;

// Whether some rank in both rows has a sum of at most the limit.
fn walk(a: &[Entry], b: &[Entry], limit: usize) -> bool
    requires { Rises a.now × Rises b.now × (limit < no_sum) }
    ensures { result ≡ some_within limit (meetings a.now b.now) }
{
    let mut i = 0;
    let mut j = 0;
    // Two cursors that move by what they meet, as in the merge.
    while i < a.len() && j < b.len() {
        let turn = Turn::of(a[i], b[j]);
        if turn.meeting.sum <= limit {
            return true;
        }
        i += turn.first;
        j += turn.second;
    }
    false
}

// Whether (s,t) has an answer of at most the limit.
pub fn within(
    n: usize,
    w: usize,
    labels: &[Entry],
    counts: &[u32],
    s: usize,
    t: usize,
    limit: usize,
) -> Result<bool, Refusal>
    ensures answer { result ≡ within_of n w labels.now counts.now s t limit }
    ensures numbers { within_told result
        ≡ within_told (within_of n w labels.now counts.now s t limit) }
{
    let (first, second) = rows_asked(n, w, labels, counts, s, t)?;
    // Below the sum that stands for no meeting.
    Ok(walk(first, second, limit.min(NO_SUM - 1)))
}
