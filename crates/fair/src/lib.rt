#![tactic(auto)]

// No code: order 4 of document 02, the run that picks its own choices, as a definition, and what is true of it. There are no functions.
