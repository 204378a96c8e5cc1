// A lane traced back: lane/mod.rs, with the cells of the lane table that it fills. They lie in the work room.
#![tactic(auto)]

pub mod table;
pub mod trace;

// What a trace is about: the numbers of the grammar's terminals, of the states, and of the columns of the lane table.
#[derive(Clone, Copy)]
pub struct Lanes {
    pub terminals: usize,
    pub states: usize,
    pub columns: usize,
}
