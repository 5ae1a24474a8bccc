#![tactic(auto)]

// No code: all that we promise, on one page (proofs/Promises.antt).
