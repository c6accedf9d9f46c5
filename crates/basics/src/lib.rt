// No code: the small definitions and laws that every other crate cites. Searches over places, tables, sums, cases on a
// truth value. The definitions stand in specs/, their laws in proofs/.
#![tactic(auto)]
