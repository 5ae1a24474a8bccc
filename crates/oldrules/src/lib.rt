#![tactic(auto)]

// The rules as they were before an order changed them, each kept only as far as the comparison of runs needs it, and that
// comparison. No code follows them. There are no functions.
