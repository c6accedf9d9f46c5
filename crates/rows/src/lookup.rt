// The row lookup: the used part of a frame's row, where it lies in the label room.
ghost use Rattle.std.specs.Prelude.{◌≡◌, ◌+◌, ◌*◌};
ghost use Rattle.entry.specs.Entry.{entry_bytes};
ghost use Rattle.rows.specs.Lookup.{row_of, row_start};

use crate::asked::row_asked;
use entry::Entry;

// The used part of the row of v, and the empty part at the room's front where the row check refuses.
pub fn row<'a, 'b>(
    n: usize,
    w: usize,
    labels: &'a [Entry],
    counts: &'b [u32],
    v: usize,
) -> &'a [Entry]
    ensures entries { result.now ≡ row_of n w labels.now counts.now v }
    ensures lies { result.ref_ptr
        ≡ (
          labels.entry.ref_ptr.0,
          row_start n w labels.now counts.now v * entry_bytes
              + labels.entry.ref_ptr.1,
        ) }
{
    row_asked(n, w, labels, counts, v).unwrap_or(&labels[0..0])
}
