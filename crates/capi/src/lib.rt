// The C interface: thin functions that return the paper's number, 0 for success, and write the place and every other value
// through `&mut`, 0 on a refusal. What they mean for a C caller stands in seam.h beside this folder; the crate `capi_c` exports
// them.
#![tactic(auto)]

pub mod build_calls;
pub mod file_calls;
pub mod link_calls;
pub mod row_calls;
pub mod target_calls;
mod tell;
