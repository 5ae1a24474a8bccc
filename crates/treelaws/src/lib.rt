//! What is known of comparing two trees pair by pair. There are no functions: what an answer says stands in specs/, the laws
//! that the code of `trees` cites in proofs/; `evallaws` and `writer` cite what two equal trees are made of (SameTables).
#![tactic(auto)]

/// A store of pairs had no room for one more.
#[derive(Clone, Copy, Debug, PartialEq, Eq)]
pub struct Full;
