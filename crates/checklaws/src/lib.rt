#![tactic(auto)]

// No code: what the pieces of the check answer, each in the definitions' words, and why they make the check.
