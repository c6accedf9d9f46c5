// The one place of this crate that cuts a row out of the label room: row v starts at place v * W.
ghost use Rattle.std.specs.Prelude.{◌≡◌, ◌+◌, ◌*◌, ◌≤◌, length};
ghost use Rattle.entry.specs.Entry.{entry_bytes};
ghost use Rattle.rows.specs.Rooms.{part};

use entry::Entry;

// The first `count` entries of row v, which lie in the room.
pub fn cut(labels: &[Entry], w: usize, v: usize, count: usize) -> &[Entry]
    requires { v * w + count ≤ length labels.now }
    ensures entries { result.now ≡ part w labels.now v count }
    ensures lies { result.ref_ptr ≡ (labels.entry.ref_ptr.0, v * w * entry_bytes + labels.entry.ref_ptr.1) }
{
    let start = v * w;
    let end = start + count;
    &labels[start..end]
}
