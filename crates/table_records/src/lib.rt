// The records of the table that the states in the work room give, as bytes. The crate record reads them.
#![tactic(auto)]

pub mod result;
pub mod write;
