// The fields of the index file, in and out of bytes: which fields there are, how wide, and in which order. An inner crate:
// only the index file's reader and writer call it, behind their own tests, so that its functions ask for what those showed.
#![tactic(auto)]

pub mod get;
pub mod put;
pub mod widths;
