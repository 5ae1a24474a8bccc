//! No code: when the words of a workspace hold a state of a run of an accepted script, what a step and a run say of the
//! words before and after, and the laws that the loop of a run cites.
#![tactic(auto)]
