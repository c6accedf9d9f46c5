// The spread: twice the largest joins among used entries of rank 0, or 0 if there is none.
ghost use Rattle.std.specs.Prelude.{◌≡◌};
ghost use Rattle.rows.specs.Spread.{spread_of, spread_told};

use crate::asked::Rows;
use crate::rooms::check_rooms;
use entry::Entry;
use refusal::{Reason, Refusal, test};

// The spread of an index, in one pass: every row is tested, and the lowest frame whose row is not sound is named. A row's
// front is read before its test, so that the test does not wait for it.
pub fn spread(n: usize, w: usize, labels: &[Entry], counts: &[u32]) -> Result<usize, Refusal>
    ensures answer { result ≡ spread_of n w labels.now counts.now }
    ensures numbers { spread_told result ≡ spread_told (spread_of n w labels.now counts.now) }
{
    check_rooms(n, w, labels, counts)?;
    let rows = Rows {
        n,
        w,
        labels,
        counts,
    };
    let mut found = 0;
    for v in 0..n {
        let front = rows.front_joins(v);
        test(rows.sound(n, v), Reason::Row, v)?;
        found = found.max(front);
    }
    Ok(2 * found)
}
