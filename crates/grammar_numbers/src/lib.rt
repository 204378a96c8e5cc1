// The numbers of a coded grammar: how many terminals, nonterminals and productions it has, its start, and its productions by number.
#![tactic(auto)]

pub mod counts;
pub mod productions;
