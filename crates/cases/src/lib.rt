#![tactic(auto)]

// No code: the worked cases, scripts that are computed through the check and the rules from their bytes on. They stand in
// proofs/.
