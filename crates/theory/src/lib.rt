// No code: chains of links, the distance, the row rule, answers, the walk, and demand 3. Definitions in specs/, the
// theorems about them in proofs/.
#![tactic(auto)]
