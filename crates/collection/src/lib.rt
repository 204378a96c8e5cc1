// The collection of states: build/mod.rs, build_states and what it calls of kernel_set.rs.
#![tactic(auto)]

pub mod build;
pub mod expand;
pub mod kernels;
