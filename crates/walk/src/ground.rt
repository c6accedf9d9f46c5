// What a walk goes over, and the search over it: level by level along the queue. It only reads the lists, the rows and the notes.
ghost use Rattle.std.specs.Prelude.{ℕ, ◌≡◌, ◌+◌, ◌<◌, ◌≤◌, length, get_or};
ghost use Rattle.rows.specs.Rooms.{row_at};
ghost use Rattle.entry.specs.Inner.{RanksIn};
ghost use Rattle.walk.specs.Inner.{list_at, ListLies, RowsRise, row_within, MeetIn, Grown};

use entry::{Entry, joins_of, rank_of};

// What the met room has more for a dropped frame: above every level.
pub const DROP_MARK: u32 = 65536;

// The list of a frame lies from its start up to the next.
#[derive(Clone, Copy)]
pub struct Lists<'a> {
    pub starts: &'a [u32],
    pub places: &'a [u32],
    ghost lie: { (v : ℕ) → v + 1 < length starts.now → ListLies starts.now places.now v },
}

impl<'a> Lists<'a> {
    pub fn list(&self, v: usize) -> &'a [u32]
        requires { v + 1 < length self.now.starts.now }
        ensures { result.now ≡ list_at self.now.starts.now self.now.places.now v }
    {
        &self.places[self.starts[v] as usize..self.starts[v + 1] as usize]
    }
}

// The row of frame v starts at place v * w, and has as many entries as its count says.
#[derive(Clone, Copy)]
pub struct Rows<'a> {
    pub w: usize,
    pub labels: &'a [Entry],
    pub counts: &'a [u32],
    ghost rise: { RowsRise (length counts.now) w labels.now counts.now },
}

impl<'a> Rows<'a> {
    pub fn row(&self, v: usize) -> &'a [Entry]
        requires { v < length self.now.counts.now }
        ensures { result.now ≡ row_at self.now.w self.now.labels.now self.now.counts.now v }
    {
        let start = v * self.w;
        &self.labels[start..start + self.counts[v] as usize]
    }
}

// Whether a row and the noted one have an answer of at most `level`. A rank that is not noted gives a sum above it.
fn near(row: &[Entry], noted: &[u32], level: usize) -> bool
    requires { RanksIn row.now noted.now }
    ensures { result ≡ row_within noted.now row.now level }
{
    for &e in row {
        if joins_of(e) + noted[rank_of(e)] as usize <= level {
            return true;
        }
    }
    false
}

// Meets the frames of a list that are not met yet, with this mark, and puts them behind the queue; gives back its new end. The
// met room, the queue and its end are no struct: a frame is met by three writes, and between them no invariant would hold.
fn meet(list: &[u32], mark: u32, met: &mut [u32], queue: &mut [u32], tail: usize) -> usize
    requires { MeetIn list.now mark met.old queue.old tail }
    ensures { Grown list.now (length list.now) mark
        met.old queue.old tail met.new queue.new result }
{
    let mut grown = tail;
    for &v in list {
        if met[v as usize] == 0 {
            met[v as usize] = mark;
            queue[grown] = v;
            grown += 1;
        }
    }
    grown
}

// What a walk goes over: the lists of the block, the rows so far, and the joins of its hub's row noted by rank.
#[derive(Clone, Copy)]
pub struct Ground<'a> {
    pub lists: Lists<'a>,
    pub rows: Rows<'a>,
    pub noted: &'a [u32],
    ghost notes: { length rows.counts.now ≤ length noted.now },
}

impl<'a> Ground<'a> {
    ghost use Rattle.walk.specs.Ground.{frames, drops_on, Walking, StepIn, ReachIn};

    // Whether the answer for the noted hub and u is at most `level`.
    fn drops(&self, u: usize, level: usize) -> bool
        requires { u < frames self.now }
        ensures { result ≡ drops_on self.now u level }
    {
        near(self.rows.row(u), self.noted, level)
    }

    // The frame at `head`: dropped, it gets its mark; else its neighbours that are not met yet are met one level on.
    fn step(&self, met: &mut [u32], queue: &mut [u32], head: usize, tail: usize) -> usize
        requires { StepIn self.now (get_or queue.old 0 0) met.old queue.old head tail }
        ensures { Walking self.now (get_or queue.old 0 0) met.new queue.new (head + 1) result }
    {
        let u = queue[head] as usize;
        let mark = met[u];
        if self.drops(u, (mark - 1) as usize) {
            met[u] = mark + DROP_MARK;
            return tail;
        }
        meet(self.lists.list(u), mark + 1, met, queue, tail)
    }

    // The walk from the hub, level by level along the queue; gives back how many frames it met. The queue grows under the loop,
    // so that no `for` goes along it.
    pub fn reach(&self, hub: usize, met: &mut [u32], queue: &mut [u32]) -> usize
        requires { ReachIn self.now hub met.old queue.old }
        ensures { Walking self.now hub met.new queue.new result result }
    {
        met[hub] = 1;
        queue[0] = hub as u32;
        let mut head = 0;
        let mut tail = 1;
        while head < tail {
            tail = self.step(met, queue, head, tail);
            head += 1;
        }
        tail
    }
}
