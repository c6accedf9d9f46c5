// The rooms of an index, and the library's calls on them.
ghost use Rattle.std.specs.Prelude.{◌*◌, ◌≤◌};

use refusal::Refusal;

// Fixed memory for rooms.
#[derive(Drop)]
pub struct Memory<const FRAMES: usize, const PLACES: usize> {
    labels: [u32; PLACES],
    counts: [u32; FRAMES],
    met: [u32; FRAMES],
    queue: [u32; FRAMES],
}

impl<const FRAMES: usize, const PLACES: usize> Memory<FRAMES, PLACES> {
    pub fn new() -> Self {
        Self {
            labels: [0; PLACES],
            counts: [0; FRAMES],
            met: [0; FRAMES],
            queue: [0; FRAMES],
        }
    }

    // Rooms for n frames and w entries in a row.
    pub fn rooms(&mut self, n: usize, w: usize) -> Rooms<'_>
        requires { (n ≤ FRAMES) × (n * w ≤ PLACES) }
    {
        let Self {
            labels,
            counts,
            met,
            queue,
        } = self;
        Rooms {
            n,
            w,
            labels: &mut labels[..n * w],
            counts: &mut counts[..n],
            met: &mut met[..n],
            queue: &mut queue[..n],
        }
    }
}

// Rooms of an index, lent.
#[derive(Drop)]
pub struct Rooms<'a> {
    n: usize,
    w: usize,
    labels: &'a mut [u32],
    counts: &'a mut [u32],
    met: &'a mut [u32],
    queue: &'a mut [u32],
}

impl Rooms<'_> {
    // A build with every hub of an order.
    pub fn build(
        &mut self,
        starts: &[u32],
        places: &[u32],
        order: &[u32],
    ) -> Result<usize, Refusal> {
        let n = self.n;
        let w = self.w;
        build::build(
            n,
            w,
            n,
            starts,
            places,
            order,
            self.labels,
            self.counts,
            self.met,
            self.queue,
        )
    }

    pub fn pair(&self, s: usize, t: usize) -> Result<Option<usize>, Refusal> {
        rows::pair::pair(self.n, self.w, self.labels, self.counts, s, t)
    }

    // The file of the first k hubs of an order, put at the front of a room; its length.
    pub fn write(&self, order: &[u32], k: usize, file: &mut [u8]) -> Result<usize, Refusal> {
        file::write(self.n, self.w, k, order, self.labels, self.counts, file, 0)
    }

    // Fills an order and the rooms from a file.
    pub fn read(&mut self, file: &[u8], order: &mut [u32]) -> Result<file::Index, Refusal> {
        let w = self.w;
        file::read(file, w, order, self.labels, self.counts)
    }
}
