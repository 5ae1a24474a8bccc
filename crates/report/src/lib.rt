//! The listing of document 01 as text. Each function writes one line, or a piece of one, on a page, and its contract says exactly which bytes it
//! puts down there (specs/Listing; Written is of the crate text).
#![tactic(auto)]

pub mod codes;
pub mod ends;
pub mod lines;
pub mod values;
