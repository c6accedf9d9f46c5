// A row's part of the label room: row v starts at place v * W.
ghost use Rattle.std.specs.Prelude.{◌≡◌, ◌+◌, ◌*◌};
ghost use Rattle.entry.specs.Entry.{entry_bytes};
ghost use Rattle.rows.specs.Rooms.{in_room, part_of, part_start};

use crate::cut::cut;
use entry::Entry;
use refusal::sizes::{MOST_FRAMES, MOST_WIDTH};

// Whether `count` entries of row v lie in the room. A room has at most 4,096 rows, so that frame numbers are below that,
// each at most 256 wide, so that no product wraps.
fn in_room(labels: &[Entry], w: usize, v: usize, count: usize) -> bool
    ensures { result ≡ in_room w labels.now v count }
{
    if MOST_FRAMES <= v || MOST_WIDTH < w {
        return false;
    }
    let start = v * w;
    start <= labels.len() && count <= labels.len() - start
}

// The first `count` entries of row v, and the empty part at the room's front where they do not lie in the room.
pub fn row_part(labels: &[Entry], w: usize, v: usize, count: usize) -> &[Entry]
    ensures entries { result.now ≡ part_of w labels.now v count }
    ensures lies { result.ref_ptr
        ≡ (
          labels.entry.ref_ptr.0,
          part_start w labels.now v count * entry_bytes
              + labels.entry.ref_ptr.1,
        ) }
{
    if in_room(labels, w, v, count) {
        cut(labels, w, v, count)
    } else {
        &labels[0..0]
    }
}
