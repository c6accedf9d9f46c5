// The hub orders that are tried.
use crate::block::Block;
use crate::dice::Dice;
use crate::difference::Difference;
use crate::room::cut;
use links::order_by_degree;
use std::fmt;

#[derive(Clone, Copy, Debug, PartialEq, Eq)]
pub enum Order {
    Shuffled,
    ByDegree,
}

impl Order {
    pub const ALL: [Order; 2] = [Order::Shuffled, Order::ByDegree];

    // The frames of a block in this order, at the front of a room. A refusal, which nothing in a sound block asks for, is a
    // difference.
    pub fn of<'a>(
        self,
        block: &Block,
        seed: u64,
        room: &'a mut [u32],
    ) -> Result<&'a [u32], Difference> {
        let order = cut(room, block.n as usize);
        match self {
            Order::Shuffled => shuffle(order, seed),
            Order::ByDegree => by_degree(order, block)?,
        }
        Ok(order)
    }
}

impl fmt::Display for Order {
    fn fmt<W: fmt::Write>(&self, f: &mut fmt::Formatter<W>) -> fmt::Result {
        match self {
            Order::Shuffled => write!(f, "shuffled"),
            Order::ByDegree => write!(f, "by degree"),
        }
    }
}

// Each frame at the rank that is its number.
fn number(order: &mut [u32]) {
    for (place, frame) in order.iter_mut().zip(0..) {
        *place = frame;
    }
}

// A random order.
fn shuffle(order: &mut [u32], seed: u64) {
    number(order);
    let mut dice = Dice::new(seed);
    for last in (1..order.len()).rev() {
        order.swap(dice.below(last + 1), last);
    }
}

fn by_degree(order: &mut [u32], block: &Block) -> Result<(), Difference> {
    let n = order.len();
    order_by_degree(n, block.starts, block.places, order).map_err(|refusal| Difference::Order {
        n,
        refusal,
    })
}
