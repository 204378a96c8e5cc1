// Refusal 15: which records of a table have a fault. A table without fault is gone through once, each record with a search by halving;
// only a refusal costs a second pass.
#![tactic(auto)]

pub mod faults;
pub mod passes;
