//! The program `turns` as a library: what is printed for a script's file and the choice file that is made of its fair run, and the files.
#![tactic(auto)]

pub mod answer;
pub mod files;
