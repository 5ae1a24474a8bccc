//! The lines that the program `encode` prints, each put down on a page: those of one line (lines), and the second line of a refused text (second),
//! with what could have stood there (could), from the tables of words (words).
#![tactic(auto)]

mod could;
pub mod lines;
pub mod second;
mod words;
