// No code: what the contracts of the other crates give together, from the links handed in to an answer asked of a file read
// back.
#![tactic(auto)]
