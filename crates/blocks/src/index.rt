// The library's rooms, and what it answers from them.
ghost use Rattle.std.specs.Prelude.{◌≤◌};

use crate::block::Block;
use crate::difference::Difference;
use crate::room::cut;
use build::build;
use entry::Entry;
use refusal::Refusal;
use rows::pair::pair;

#[derive(Drop)]
pub struct Index<'a> {
    n: usize,
    w: usize,
    k: usize,
    labels: &'a mut [Entry],
    counts: &'a mut [u32],
    met: &'a mut [u32],
    queue: &'a mut [u32],
}

impl<'a> Index<'a> {
    // Rooms for a block, with w entries in a row: the fronts of longer ones.
    pub fn new(
        block: &Block,
        w: usize,
        labels: &'a mut [Entry],
        counts: &'a mut [u32],
        met: &'a mut [u32],
        queue: &'a mut [u32],
    ) -> Self
        requires { w ≤ 256 }
    {
        let n = block.n as usize;
        Self {
            n,
            w,
            k: 0,
            labels: cut(labels, n * w),
            counts: cut(counts, n),
            met: cut(met, n),
            queue: cut(queue, n),
        }
    }

    // A build up to stop k. What the rooms hold before must not matter: the rows are those of the build before, and the work
    // rooms hold nothing that a walk could leave.
    pub fn build(&mut self, block: &Block, order: &[u32], k: usize) -> Result<usize, Refusal> {
        self.k = k;
        self.met.fill(u32::MAX);
        self.queue.fill(u32::MAX);
        build(
            self.n,
            self.w,
            k,
            block.starts,
            block.places,
            order,
            self.labels,
            self.counts,
            self.met,
            self.queue,
        )
    }

    // Every answer for s held against what was searched, up to the first that differs.
    pub fn compare_row(&self, s: usize, searched: &[Option<usize>]) -> Result<(), Difference> {
        for (t, searched) in searched.iter().enumerate() {
            self.compare(s, t, *searched)?;
        }
        Ok(())
    }

    fn compare(&self, s: usize, t: usize, searched: Option<usize>) -> Result<(), Difference> {
        let said = pair(self.n, self.w, self.labels, self.counts, s, t);
        if said == Ok(searched) {
            return Ok(());
        }
        Err(Difference::Pair {
            n: self.n,
            k: self.k,
            s,
            t,
            said,
            searched,
        })
    }
}
