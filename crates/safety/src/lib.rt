#![tactic(auto)]

// No code: demand 3 as theorems about the rules. The invariant stands in specs/, the theorems in proofs/.
