// What a build must give, from the plain searches alone: while the hubs are taken in rank order, the entries of every row are
// counted by the row rule.
use crate::sums::is_fewer;
use refusal::{Reason, Refusal};

#[derive(Drop)]
pub struct Rule<'a> {
    w: usize,
    // The entries of each row so far.
    sizes: &'a mut [usize],
    // The entries of all rows so far; or the refusal at the lowest rank at which some row has more than fit.
    due: Result<usize, Refusal>,
}

impl<'a> Rule<'a> {
    // With at most w entries in a row, before the first hub.
    pub fn new(w: usize, sizes: &'a mut [usize]) -> Self {
        sizes.fill(0);
        Self {
            w,
            sizes,
            due: Ok(0),
        }
    }

    pub fn due(&self) -> Result<usize, Refusal> {
        self.due
    }

    // Takes the hub of one rank, by the joins from it to every frame and its least sums with each. By the row rule a frame has
    // an entry exactly if the joins are fewer than every sum through a hub of lower rank.
    pub fn take_hub(&mut self, rank: usize, joins: &[Option<usize>], sums: &[Option<usize>]) {
        for (size, (joins, sum)) in self.sizes.iter_mut().zip(joins.iter().zip(sums)) {
            if is_fewer(*joins, *sum) {
                *size = size.saturating_add(1);
                self.due = enter(self.due, *size <= self.w, rank);
            }
        }
    }
}

// What is due after one entry more, if the row has room for it.
fn enter(due: Result<usize, Refusal>, fits: bool, rank: usize) -> Result<usize, Refusal> {
    let entries = due?;
    if fits {
        Ok(entries.saturating_add(1))
    } else {
        Err(Reason::Room.at(rank))
    }
}
