// No code: the contract of the fair run, what its loop keeps and what its parts say, and the laws that the loop cites. The
// types that they share with the code:
#![tactic(auto)]

use rules::Answer;

// The answer of a fair run, and how many choices it picked: with an end by a step that wasn't made one more than its steps.
#[derive(Clone, Copy)]
pub struct Turned {
    pub answer: Answer,
    pub picked: usize,
}

// What the loop keeps of a turn: how many command parts stood as it began, how many words at the beginning of control are
// surely commands that wait, and whether an atom is entered.
#[derive(Clone, Copy)]
pub struct Round {
    pub count: usize,
    pub waiting: usize,
    pub inside: bool,
}
