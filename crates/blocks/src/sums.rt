// For each pair of frames the least sum over the hubs taken so far: the joins from the first frame to the hub and on to the
// second. None where no hub reaches both.
use crate::room::cut;
use crate::square::SIDE;

// Whether a number of joins is fewer than another, where None is no chain.
pub fn is_fewer(joins: Option<usize>, than: Option<usize>) -> bool {
    joins.is_some_and(|joins| than.is_none_or(|than| joins < than))
}

#[derive(Drop)]
pub struct Sums<'a> {
    n: usize,
    rows: &'a mut [[Option<usize>; SIDE]],
}

impl<'a> Sums<'a> {
    // Of n frames, before the first hub.
    pub fn new(n: usize, rows: &'a mut [[Option<usize>; SIDE]]) -> Self {
        let rows = cut(rows, n);
        for row in rows.iter_mut() {
            cut(row, n).fill(None);
        }
        Self { n, rows }
    }

    // The sums of frame s with each.
    pub fn row(&self, s: usize) -> &[Option<usize>] {
        self.rows
            .get(s)
            .and_then(|row| row.get(..self.n))
            .unwrap_or(&[])
    }

    // Takes one more hub into the sums, by the joins from it to each frame.
    pub fn take_hub(&mut self, joins: &[Option<usize>]) {
        for (row, there) in self.rows.iter_mut().zip(joins) {
            lower(row, *there, joins);
        }
    }
}

// One row, of a frame from which there are so many joins to the hub.
fn lower(row: &mut [Option<usize>], there: Option<usize>, joins: &[Option<usize>]) {
    for (sum, back) in row.iter_mut().zip(joins) {
        let through = there
            .zip(*back)
            .map(|(there, back)| there.saturating_add(back));
        if is_fewer(through, *sum) {
            *sum = through;
        }
    }
}
