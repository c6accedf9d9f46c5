// The tests on a label room and a count room: SIZE, LENGTH, and ROW for all rows or for one.
ghost use Rattle.std.specs.Prelude.{◌≡◌};
ghost use Rattle.refusal.specs.Told.{verdict_told};
ghost use Rattle.rows.specs.Rooms.{check_row, check_rows};

use crate::asked::{Rows, row_asked};
use crate::rooms::check_rooms;
use entry::Entry;
use refusal::{Reason, Refusal, test};

// The test of all rows for a rank bound: 1, 2, and 9 with the lowest frame whose row is not sound.
pub fn check_rows(
    n: usize,
    w: usize,
    bound: usize,
    labels: &[Entry],
    counts: &[u32],
) -> Result<(), Refusal>
    ensures answer { result ≡ check_rows n w bound labels.now counts.now }
    ensures numbers { verdict_told result
        ≡ verdict_told (check_rows n w bound labels.now counts.now) }
{
    check_rooms(n, w, labels, counts)?;
    let rows = Rows {
        n,
        w,
        labels,
        counts,
    };
    for v in 0..n {
        test(rows.sound(bound, v), Reason::Row, v)?;
    }
    Ok(())
}

// The row check: 1, 2, 8, 9.
pub fn check_row(
    n: usize,
    w: usize,
    labels: &[Entry],
    counts: &[u32],
    v: usize,
) -> Result<(), Refusal>
    ensures answer { result ≡ check_row n w labels.now counts.now v }
    ensures numbers { verdict_told result ≡ verdict_told (check_row n w labels.now counts.now v) }
{
    row_asked(n, w, labels, counts, v)?;
    Ok(())
}
