// The lane table: table/mod.rs. It lies in the work room.
#![tactic(auto)]

pub mod action;
pub mod area;
pub mod build;
pub mod clear;
pub mod rows;
