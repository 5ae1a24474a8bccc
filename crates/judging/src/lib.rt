// The next place of a text, judged before anything is written: what its token is worth (worth), and what takes it, or what is wrong with it (judge).

#![tactic(auto)]

pub mod judge;
mod worth;
pub mod wrong;
