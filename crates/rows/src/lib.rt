// Rows and the questions asked of them: sound rows, the pair question and within so many joins, the row check and lookup, and the
// spread.
#![tactic(auto)]

mod asked;
pub mod check;
mod cut;
pub mod lookup;
mod merge;
pub mod pair;
pub mod part;
pub mod rooms;
mod sound;
pub mod spread;
pub mod within;
