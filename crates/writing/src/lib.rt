#![tactic(auto)]

// No code: how a tree is written as a text, and why that text is read as the tree, its names renumbered.
