// How many records the states in the work room give, and where the symbols lead from a state.
#![tactic(auto)]

pub mod count;
pub mod sinks;
pub mod transitions;
pub mod walk;
