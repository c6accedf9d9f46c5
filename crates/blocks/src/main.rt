// The independent second program: random blocks, each build's entries or refusal and every pair's answer held against plain
// breadth-first counts through the first k hubs. The counts share no code with the library: lists come from a square of
// marks, distances from a search that knows nothing of rows, the least sum over the hubs is kept for every pair, and the row
// rule is applied to these. It prints how many blocks, builds, entries and pairs were compared, and `all equal` or the
// first difference.
#![tactic(auto)]

mod block;
mod dice;
mod difference;
mod grid;
mod index;
mod kind;
mod order;
mod random;
mod room;
mod rule;
mod search;
mod square;
mod sums;
mod tally;

fn main(rt: HostRuntime) {
    random::random_blocks(&rt);
    grid::grid(&rt);
}
