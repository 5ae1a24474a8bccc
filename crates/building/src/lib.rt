// The nodes of a text put down one behind the other (nodes), and its end: the nodes of what is still due, and the image that goes out (finish).

#![tactic(auto)]

pub mod finish;
pub mod nodes;
