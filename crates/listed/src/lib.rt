#![tactic(auto)]

// What is printed of a run, line by line. There are no functions: the definition stands in specs/, its worked example and its computed cases in proofs/.
