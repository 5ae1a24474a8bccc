#![tactic(auto)]

// What a written script is, and what image it stands for: definitions and theorems alone. There are no functions.
