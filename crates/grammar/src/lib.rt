// The coded grammar: what stands in its records, and its items. Which bytes are one says the crate grammar_check.
#![tactic(auto)]

pub mod items;
pub mod records;
pub mod symbols;
