// One large block, the 64 x 64 grid, W = 256. In a random order its rows have room; the order by degree, where nearly all
// degrees are equal, runs along the grid's lines, and is refused for want of room.
use crate::block::Block;
use crate::dice::Dice;
use crate::difference::{Difference, report};
use crate::index::Index;
use crate::order::Order;
use crate::search::Search;
use entry::Entry;

const LINE: u32 = 64;

// Frames of the grid, its neighbour places, and most entries of a row.
const FRAMES: usize = 4096;

const PLACES: usize = 16128;

const WIDTH: usize = 256;

// Frames from which every pair is compared.
const SOURCES: usize = 64;

// Whether two frames lie side by side, in a column or in a line.
fn is_beside(s: u32, t: u32) -> bool {
    let lines = (s / LINE).abs_diff(t / LINE);
    let columns = (s % LINE).abs_diff(t % LINE);
    matches!((lines, columns), (0, 1) | (1, 0))
}

// Searches from some frames of the grid, and compares.
fn compare_sources(block: &Block, index: &Index, pairs: &mut usize) -> Result<(), Difference> {
    let mut joins = [None; FRAMES];
    let mut queue = [(0, 0); FRAMES];
    let mut search = Search::new(FRAMES, &mut joins, &mut queue);
    let mut dice = Dice::new(4096);
    for _ in 0..SOURCES {
        let s = dice.below(FRAMES);
        search.run(block, s as u32);
        let joins = search.joins();
        index.compare_row(s, joins)?;
        *pairs = pairs.saturating_add(joins.len());
    }
    Ok(())
}

// The grid in one order: a build with every hub, and its answers or its refusal.
fn try_grid(
    rt: &impl Print,
    block: &Block,
    order: Order,
    labels: &mut [Entry],
) -> Result<(), Difference> {
    let mut hubs = [0; FRAMES];
    let mut counts = [0; FRAMES];
    let mut met = [0; FRAMES];
    let mut queue = [0; FRAMES];
    let hubs = order.of(block, 64, &mut hubs)?;
    let mut index = Index::new(block, WIDTH, labels, &mut counts, &mut met, &mut queue);
    match index.build(block, hubs, FRAMES) {
        Ok(entries) => {
            let mut pairs = 0;
            let is_equal = report(rt, compare_sources(block, &index, &mut pairs));
            let _ = println!(rt; "grid {order} entries {entries} pairs {pairs}");
            if is_equal {
                let _ = println!(rt; "all equal");
            }
        }
        Err(refusal) => {
            let _ = println!(rt; "grid {order} {refusal}");
        }
    }
    Ok(())
}

pub fn grid(rt: &impl Print) {
    let mut starts = [0; FRAMES + 1];
    let mut places = [0; PLACES];
    let mut labels = [0; FRAMES * WIDTH];
    let block = Block::lay(FRAMES as u32, is_beside, &mut starts, &mut places);
    for order in Order::ALL {
        report(rt, try_grid(rt, &block, order, &mut labels));
    }
}
