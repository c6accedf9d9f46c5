// Random blocks: sparse, dense, paths and blocks of many pieces, each in a random order and in the order by degree, at a
// spread of stops, in rows as wide as the block and now and then in narrower ones.
ghost use Rattle.std.specs.Prelude.{◌<◌, ◌≤◌};

use crate::block::Block;
use crate::dice::Dice;
use crate::difference::{Difference, report};
use crate::index::Index;
use crate::kind::Kind;
use crate::order::Order;
use crate::rule::Rule;
use crate::search::Search;
use crate::square::{SIDE, Square};
use crate::sums::Sums;
use crate::tally::Tally;

// Blocks compared.
const BLOCKS: usize = 300;

// A block in one order: its builds, and what is due by the searches from the hubs so far.
#[derive(Drop)]
struct Trial<'a> {
    block: &'a Block<'a>,
    order: &'a [u32],
    index: Index<'a>,
    search: Search<'a>,
    sums: Sums<'a>,
    rule: Rule<'a>,
}

impl Trial<'_> {
    // From no hub to all of them.
    fn run(&mut self, tally: &mut Tally) -> Result<(), Difference> {
        for k in 0..=self.order.len() {
            if is_stop(self.order.len(), k) {
                self.try_stop(k, tally)?;
            }
            self.take_hub(k);
        }
        Ok(())
    }

    // A build up to stop k: what it gives, then every pair unless it was refused.
    fn try_stop(&mut self, k: usize, tally: &mut Tally) -> Result<(), Difference> {
        let n = self.order.len();
        let built = self.index.build(self.block, self.order, k);
        let due = self.rule.due();
        if built != due {
            return Err(Difference::Build { n, k, built, due });
        }
        match built {
            Ok(entries) => {
                tally.built(entries);
                self.compare(tally)?;
            }
            Err(_) => tally.refused(),
        }
        Ok(())
    }

    // Every pair of one build.
    fn compare(&self, tally: &mut Tally) -> Result<(), Difference> {
        for s in 0..self.order.len() {
            let sums = self.sums.row(s);
            self.index.compare_row(s, sums)?;
            tally.compared(sums.len());
        }
        Ok(())
    }

    // Takes the hub of rank k, if there is one, into what is due and into the sums.
    fn take_hub(&mut self, k: usize) {
        if let Some(hub) = self.order.get(k).copied() {
            self.search.run(self.block, hub);
            let joins = self.search.joins();
            self.rule.take_hub(k, joins, self.sums.row(hub as usize));
            self.sums.take_hub(joins);
        }
    }
}

// Whether a stop is tried.
fn is_stop(n: usize, k: usize) -> bool {
    [0, 1, 2, n / 2, n.saturating_sub(1), n].contains(&k)
}

// Frames of a block: every size once, then small ones.
fn size_of(number: usize, dice: &mut Dice) -> usize
    requires { 0 < number }
    ensures { (0 < result) × (result ≤ 200) }
{
    let small = 1 + dice.below(40);
    if number <= SIDE { number } else { small }
}

// Most entries of a row: n for three blocks of four, else a few.
fn width_of(number: usize, n: usize, dice: &mut Dice) -> usize
    ensures { result ≤ n }
{
    let few = 1 + dice.below(16);
    if number % 4 == 3 { few.min(n) } else { n }
}

// Tries a block in one order.
fn try_order(
    block: &Block,
    order: Order,
    w: usize,
    seed: u64,
    tally: &mut Tally,
) -> Result<(), Difference>
    requires { w ≤ 256 }
{
    let n = block.n as usize;
    let mut hubs = [0; SIDE];
    let mut labels = [0; SIDE * SIDE];
    let mut counts = [0; SIDE];
    let mut met = [0; SIDE];
    let mut queue = [0; SIDE];
    let mut joins = [None; SIDE];
    let mut pending = [(0, 0); SIDE];
    let mut sums = [[None; SIDE]; SIDE];
    let mut sizes = [0; SIDE];
    let mut trial = Trial {
        block,
        order: order.of(block, seed, &mut hubs)?,
        index: Index::new(block, w, &mut labels, &mut counts, &mut met, &mut queue),
        search: Search::new(n, &mut joins, &mut pending),
        sums: Sums::new(n, &mut sums),
        rule: Rule::new(w, &mut sizes),
    };
    trial.run(tally)
}

// Draws one block, and tries it in both orders.
fn try_block(number: usize, tally: &mut Tally) -> Result<(), Difference>
    requires { 0 < number }
{
    let mut dice = Dice::new(number as u64);
    let n = size_of(number, &mut dice);
    let w = width_of(number, n, &mut dice);
    let kind = Kind::draw(&mut dice);
    let seed = dice.seed();
    let square = Square::draw(n, kind, &mut dice);
    let mut starts = [0; SIDE + 1];
    let mut places = [0; SIDE * SIDE];
    let is_linked = |s, t| square.is_linked(s as usize, t as usize);
    let block = Block::lay(n as u32, is_linked, &mut starts, &mut places);
    for order in Order::ALL {
        try_order(&block, order, w, seed / 2, tally)?;
    }
    Ok(())
}

fn try_blocks(tally: &mut Tally) -> Result<(), Difference> {
    for number in 1..=BLOCKS {
        try_block(number, tally)?;
    }
    Ok(())
}

// The counts and `all equal`, or the first difference.
pub fn random_blocks(rt: &impl Print) {
    let mut tally = Tally::default();
    if report(rt, try_blocks(&mut tally)) {
        let _ = println!(rt; "blocks {BLOCKS} {tally}\nall equal");
    }
}
