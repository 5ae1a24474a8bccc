// The bytes of a text, place by place: the class of a byte, the way past blanks, the next place.
#![tactic(auto)]

pub mod classes;
pub mod cursor;
pub mod kinds;
pub mod numbers;
pub mod places;
pub mod runs;
pub mod token;
