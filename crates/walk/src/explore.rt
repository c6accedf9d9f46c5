// The first half of one hub's walk: every frame it meets, level by level. The met room then holds level + 1 for a frame
// that is kept, and `DROP_MARK` more than that for one that is dropped. It only reads the rows, so the table of the hub's joins
// by rank is good for the whole of it.
ghost use Rattle.std.specs.Prelude.{◌≡◌, length};
ghost use Rattle.entry.specs.Entry.{joins_of};
ghost use Rattle.entry.specs.Inner.{RanksIn};
ghost use Rattle.walk.specs.Inner.{met_room, lacking, noted_by, ExploreIn, Queued, Low};

use crate::LACKING;
use crate::ground::{Ground, Lists, Rows};
use entry::{Entry, joins_of, rank_of};

// Notes the joins of a row by rank.
fn note(row: &[Entry], noted: &mut [u32])
    requires { RanksIn row.now noted.old }
    ensures { noted.new ≡ noted_by joins_of row.now noted.old }
{
    for &e in row {
        noted[rank_of(e)] = joins_of(e) as u32;
    }
}

// Forgets the notes of a row again.
fn forget(row: &[Entry], noted: &mut [u32])
    requires { RanksIn row.now noted.old }
    ensures { noted.new ≡ noted_by (λ _. lacking) row.now noted.old }
{
    for &e in row {
        noted[rank_of(e)] = LACKING;
    }
}

// Meets every frame of the walk of `hub`: levels and marks in `met`, the frames in `queue`; gives back how many.
pub fn explore(
    lists: Lists,
    rows: Rows,
    hub: usize,
    met: &mut [u32],
    queue: &mut [u32],
    noted: &mut [u32],
) -> usize
    requires { ExploreIn (length rows.counts.now) rows.w lists.starts.now lists.places.now
        rows.labels.now rows.counts.now hub
        met.old queue.old
        noted.old }
    ensures notes { noted.new ≡ noted.old }
    ensures levels { met.new
        ≡ met_room (length rows.entry.counts.now) rows.entry.w
        lists.entry.starts.now lists.entry.places.now
        rows.entry.labels.now rows.entry.counts.now hub }
    ensures frames { Queued met.new queue.new result }
    ensures low { Low met.new result }
{
    let own = rows.row(hub);
    note(own, noted);
    let ground = Ground { lists, rows, noted };
    let tail = ground.reach(hub, met, queue);
    forget(own, noted);
    tail
}
