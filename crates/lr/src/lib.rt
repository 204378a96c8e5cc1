// The states of the two constructions: kernel_set.rs, core/mod.rs and build/mod.rs.
#![tactic(auto)]

pub mod append;
pub mod kernels;
pub mod links;
pub mod transitions;
