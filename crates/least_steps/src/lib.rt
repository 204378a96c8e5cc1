// The steps of the least sets: an entry hands on its set to other entries, in the slots that the lane table had.
#![tactic(auto)]

pub mod give;
pub mod steps;
