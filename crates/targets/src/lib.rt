// The targets: which of up to sixteen is nearest to a frame, and how many frames lie how far from theirs.
#![tactic(auto)]

mod by_rank;
pub mod nearest;
pub mod record;
pub mod sixteen;
mod tests;
