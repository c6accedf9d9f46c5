// One hub's walk: it first finds every frame that it meets, then decides, and only then stores. So either the whole walk
// is made or rows and counts stay; the work rooms are 0 and the notes as they were either way. An inner crate: only the
// build calls it, behind its own tests, so that `walk` asks for what they showed and tests nothing again.
#![tactic(auto)]

ghost use Rattle.std.specs.Prelude.{◌≡◌, length};
ghost use Rattle.walk.specs.Inner.{WalkIn, WalkOut};

use crate::explore::explore;
use crate::ground::Rows;
use crate::settle::{Met, clean};
use entry::Entry;

mod explore;
mod ground;
mod settle;

pub use crate::ground::Lists;

// The joins noted for a rank that the hub's row lacks: above every level.
pub const LACKING: u32 = 65536;

// The mark of a frame that has the most joins: one more than its level.
const MOST_MARK: usize = refusal::sizes::MOST_JOINS + 1;

// Why a walk is not made: a row has no room, or a frame has too many joins. Nothing is then stored.
#[derive(Clone, Copy, Debug, PartialEq, Eq)]
pub enum Unmade {
    Full,
    Far,
}

// The walk of the hub of this rank, over rows that may come from anywhere.
pub fn walk(
    lists: Lists,
    w: usize,
    rank: usize,
    labels: &mut [Entry],
    counts: &mut [u32],
    hub: usize,
    met: &mut [u32],
    queue: &mut [u32],
    noted: &mut [u32],
) -> Result<(), Unmade>
    requires { WalkIn (length counts.old) w lists.starts.now lists.places.now labels.old
        counts.old hub met.old queue.old noted.old }
    ensures walked { WalkOut (length counts.old) w lists.entry.starts.now
        lists.entry.places.now
        labels.old
        counts.old rank hub result labels.new counts.new met.new
        queue.new }
    ensures notes { noted.new ≡ noted.old }
{
    let rows = Rows { w, labels, counts };
    let tail = explore(lists, rows, hub, met, queue, noted);
    let frames = &mut queue[..tail];
    let made = Met { marks: met, frames }.settle(w, rank, labels, counts);
    clean(met, frames);
    made
}
