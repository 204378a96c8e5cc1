// Closing a kernel: build/mod.rs, transitive_closure. The set of each nonterminal lies in its closure slot of the work room.
#![tactic(auto)]

pub mod close;
pub mod items;
pub mod rounds;
