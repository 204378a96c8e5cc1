// FIRST: first/mod.rs. The set of each nonterminal lies in its slot of the work room.
#![tactic(auto)]

pub mod rounds;
pub mod suffix;
