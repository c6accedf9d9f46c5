// The exports of the C archive: each has the name, the parameters and the clauses of a function of `capi`, and only calls it. The
// header is seam.h beside `capi`.
#![tactic(auto)]

pub mod build_calls;
pub mod file_calls;
pub mod link_calls;
pub mod row_calls;
pub mod target_calls;
