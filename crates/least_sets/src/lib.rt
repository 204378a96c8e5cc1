// The least sets of the final check: over the states reachable from 0, by rounds of steps.
#![tactic(auto)]

pub mod begin;
pub mod rounds;
