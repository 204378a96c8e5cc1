// What a program is given: the bytes of a file, and numbers among the words of its call.
#![tactic(auto)]

pub mod files;
pub mod numbers;
pub mod rooms;
