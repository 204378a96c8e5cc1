// The records of a table: what stands in them, and what they say of a state and a symbol. Nobody else looks into the bytes of a table.
#![tactic(auto)]

pub mod keys;
pub mod kinds;
pub mod lookup;
pub mod records;
pub mod search;
