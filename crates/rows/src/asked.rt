// The rows of a label room and a count room that fit, and the tests of the frames that a question asks of: the rooms, then the
// frames, then their rows.
ghost use Rattle.std.specs.Prelude.{◌≡◌, ◌+◌, ◌*◌, ◌<◌, IfOk};
ghost use Rattle.entry.specs.Entry.{entry_bytes};
ghost use Rattle.rows.specs.Pair.{pair_tests};
ghost use Rattle.rows.specs.Inner.{Rooms, RowOr, RowsOr, front_joins};
ghost use Rattle.rows.specs.Rooms.{check_row, row_at, row_test, sound_row};

use crate::cut::cut;
use crate::rooms::check_rooms;
use crate::sound::sound_part;
use entry::{Entry, joins_of, rank_of};
use refusal::{Reason, Refusal, test};

// A label room and a count room that 1 and 2 let through.
#[derive(Clone, Copy)]
pub struct Rows<'a, 'b> {
    pub n: usize,
    pub w: usize,
    pub labels: &'a [Entry],
    pub counts: &'b [u32],
    ghost fit: { Rooms n w labels.now counts.now },
}

impl<'a, 'b> Rows<'a, 'b> {
    // Whether row v is sound.
    pub fn sound(&self, bound: usize, v: usize) -> bool
        requires { v < self.now.n }
        ensures { result
            ≡ sound_row self.now.n self.now.w bound self.now.labels.now self.now.counts.now v }
    {
        let count = self.counts[v] as usize;
        count <= self.w && sound_part(self.n, bound, cut(self.labels, self.w, v, count))
    }

    // The joins of rank 0 at the front of row v, or 0: in a sound row rank 0 can only stand first. The row need not be tested:
    // whatever its count, only its first place is read.
    pub fn front_joins(&self, v: usize) -> usize
        requires { v < self.now.n }
        ensures { result
            ≡ front_joins (row_at self.now.w self.now.labels.now self.now.counts.now v) }
    {
        if self.counts[v] == 0 {
            return 0;
        }
        let front = self.labels[v * self.w];
        if rank_of(front) == 0 {
            joins_of(front)
        } else {
            0
        }
    }

    // 9: the row of a frame asked. Inlined, since the pair question waits for two of them.
    #[inline(always)]
    pub fn row(&self, v: usize) -> Result<&'a [Entry], Refusal>
        requires { v < self.now.n }
        ensures row { RowOr
            (row_test self.now.n self.now.w self.now.n self.now.labels.now self.now.counts.now v)
            (row_at self.now.w self.now.labels.now self.now.counts.now v)
            result }
        ensures lies { IfOk result (λ row. row.ref_ptr
            ≡ (self.now.labels.ref_ptr.0, v * self.now.w * entry_bytes + self.now.labels.ref_ptr.1)) }
    {
        test(self.sound(self.n, v), Reason::Row, v)?;
        Ok(cut(self.labels, self.w, v, self.counts[v] as usize))
    }
}

// 1, 2, 8 and 9: the row of the one frame asked.
pub fn row_asked<'a, 'b>(
    n: usize,
    w: usize,
    labels: &'a [Entry],
    counts: &'b [u32],
    v: usize,
) -> Result<&'a [Entry], Refusal>
    ensures row { RowOr
        (check_row n w labels.now counts.now v)
        (row_at w labels.now counts.now v)
        result }
    ensures lies { IfOk result (λ row. row.ref_ptr
        ≡ (labels.entry.ref_ptr.0, v * w * entry_bytes + labels.entry.ref_ptr.1)) }
{
    check_rooms(n, w, labels, counts)?;
    test(v < n, Reason::Frame, 0)?;
    let rows = Rows {
        n,
        w,
        labels,
        counts,
    };
    rows.row(v)
}

// Pair: 1, 2, 8 with 0 for the first frame and 1 for the second, then 9 for the first frame, then for the second.
pub fn rows_asked<'a, 'b>(
    n: usize,
    w: usize,
    labels: &'a [Entry],
    counts: &'b [u32],
    s: usize,
    t: usize,
) -> Result<(&'a [Entry], &'a [Entry]), Refusal>
    ensures { RowsOr
        (pair_tests n w labels.now counts.now s t)
        (row_at w labels.now counts.now s)
        (row_at w labels.now counts.now t)
        result }
{
    check_rooms(n, w, labels, counts)?;
    test(s < n, Reason::Frame, 0)?;
    test(t < n, Reason::Frame, 1)?;
    let rows = Rows {
        n,
        w,
        labels,
        counts,
    };
    let first = rows.row(s)?;
    let second = rows.row(t)?;
    Ok((first, second))
}
