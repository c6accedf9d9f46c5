// Plain breadth-first counts.
use crate::block::Block;
use crate::room::{List, cut};

// The joins from one frame to each, None where there is no chain.
#[derive(Drop)]
pub struct Search<'a> {
    joins: &'a mut [Option<usize>],
    queue: List<'a, (u32, usize)>,
}

impl<'a> Search<'a> {
    // A search among n frames that has not begun.
    pub fn new(n: usize, joins: &'a mut [Option<usize>], queue: &'a mut [(u32, usize)]) -> Self {
        Self {
            joins: cut(joins, n),
            queue: List::new(queue),
        }
    }

    pub fn joins(&self) -> &[Option<usize>] {
        self.joins
    }

    // Searches a block from one frame.
    pub fn run(&mut self, block: &Block, from: u32) {
        self.joins.fill(None);
        self.queue.clear();
        self.meet(from, 0);
        for head in 0..self.joins.len() {
            let Some((frame, joins)) = self.queue.get(head) else {
                return;
            };
            self.reach(block.list(frame as usize), joins.saturating_add(1));
        }
    }

    // Meets the frames of a list.
    fn reach(&mut self, list: &[u32], joins: usize) {
        for frame in list {
            self.meet(*frame, joins);
        }
    }

    // Meets a frame: unless it was met before, it gets these joins and goes to the queue's end.
    fn meet(&mut self, frame: u32, joins: usize) {
        if let Some(met) = self.joins.get_mut(frame as usize)
            && met.is_none()
        {
            *met = Some(joins);
            self.queue.push((frame, joins));
        }
    }
}
