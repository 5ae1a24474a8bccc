//! The program `encode` as a library: what is printed for a text and a list of fields, and the files.
#![tactic(auto)]

pub mod answer;
pub mod files;
