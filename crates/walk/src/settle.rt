// Phase two of one hub's walk. The frames that it met stand in the queue, their marks in the met room. First each kept
// frame is tested for room, and only then is anything stored, so that the walk is made as a whole or not at all.
ghost use Rattle.std.specs.Prelude.{◌≡◌, true, cond, ◌+◌, ◌-◌, ◌*◌, ◌<◌, length, get_or, set, replicate};
ghost use Rattle.entry.specs.Entry.{entry_of};
ghost use Rattle.rows.specs.Inner.{Laid};
ghost use Rattle.rows.specs.Laid.{rows_in};
ghost use Rattle.walk.specs.Inner.{Listed, is_kept, lacks_room, fits_all, GiveIn, SettleIn, settle_of, rows_after};
ghost use Rattle.walk.specs.Walk.{if_made};

use crate::ground::DROP_MARK;
use crate::{MOST_MARK, Unmade};
use entry::{Entry, entry_of};

// A met frame with this count and mark is kept and has no room. Few rows are full, so that the count is looked at first.
fn lacks_room(w: usize, count: u32, mark: u32) -> bool
    requires { 0 < mark }
    ensures { result ≡ lacks_room w count mark }
{
    w <= count as usize && mark < DROP_MARK
}

// Puts (rank, mark - 1) behind the row of v and raises its count, if the mark says kept. The two rooms are no struct: each
// function would have to promise besides that it keeps the struct's width and references.
fn give(w: usize, rank: usize, v: usize, mark: u32, labels: &mut [Entry], counts: &mut [u32])
    requires { GiveIn w v mark labels.old counts.old }
    ensures labels_after { labels.new
        ≡ cond (is_kept mark)
        (set labels.old (v * w + get_or counts.old v 0)
        (entry_of rank (mark - 1)))
        labels.old }
    ensures counts_after { counts.new
        ≡ cond (is_kept mark) (set counts.old v (get_or counts.old v 0 + 1))
        counts.old }
{
    if DROP_MARK <= mark {
        return;
    }
    let count = counts[v];
    let level = (mark - 1) as usize;
    let at = v * w + count as usize;
    labels[at] = entry_of(rank, level);
    counts[v] = count + 1;
}

// The frames that a walk met, each once, and the mark of every frame.
#[derive(Clone, Copy)]
pub struct Met<'a> {
    pub marks: &'a [u32],
    pub frames: &'a [u32],
    ghost listed: { Listed marks.now frames.now },
}

impl<'a> Met<'a> {
    // Every kept frame has room for one more entry.
    fn fits(&self, w: usize, counts: &[u32]) -> bool
        requires { length counts.now ≡ length self.now.marks.now }
        ensures { result ≡ fits_all w counts.now self.now.marks.now }
    {
        for &v in self.frames {
            if lacks_room(w, counts[v as usize], self.marks[v as usize]) {
                return false;
            }
        }
        true
    }

    // Puts an entry of this rank behind the row of every kept frame.
    fn store(&self, w: usize, rank: usize, labels: &mut [Entry], counts: &mut [u32])
        requires { SettleIn w labels.old counts.old self.now.marks.now self.now.frames.now
            × (fits_all w counts.old self.now.marks.now ≡ true) }
        ensures { Laid (length self.now.marks.now) w
            (rows_after w rank labels.old counts.old self.now.marks.now)
            labels.new counts.new }
    {
        for &v in self.frames {
            give(w, rank, v as usize, self.marks[v as usize], labels, counts);
        }
    }

    // Decides, and then stores the whole walk or nothing. A level is below the number of frames met, so that only a walk over
    // more than 4,096 frames could give one over 4,095 joins.
    pub fn settle(
        &self,
        w: usize,
        rank: usize,
        labels: &mut [Entry],
        counts: &mut [u32],
    ) -> Result<(), Unmade>
        requires { SettleIn w labels.old counts.old self.now.marks.now self.now.frames.now }
        ensures value { result ≡ settle_of w counts.old self.now.marks.now }
        ensures laid { Laid (length self.now.marks.now) w
            (λ v. if_made result
            (rows_after w rank labels.old counts.old self.now.marks.now v)
            (rows_in w labels.old counts.old v))
            labels.new counts.new }
    {
        if !self.fits(w, counts) {
            return Err(Unmade::Full);
        }
        if MOST_MARK < self.frames.len() {
            return Err(Unmade::Far);
        }
        self.store(w, rank, labels, counts);
        Ok(())
    }
}

// Clears the met room and the queue along the frames that the walk met.
pub fn clean(met: &mut [u32], frames: &mut [u32])
    requires { Listed met.old frames.old }
    ensures met_after { met.new ≡ replicate (length met.old) 0 }
    ensures frames_after { frames.new ≡ replicate (length frames.old) 0 }
{
    for &v in frames.iter() {
        met[v as usize] = 0;
    }
    frames.fill(0);
}
