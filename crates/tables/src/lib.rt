// The image of a written script, as its items come: each becomes a node, linked to the nodes before it with no stack
// (order 1, "Nodes are written children first, left before right"; reading/specs/Links).
//
// `firsts` has the first node of every node's tree so far, and zeros behind them.

#![tactic(auto)]

pub mod bytes;
pub mod head;
pub mod nodes;
