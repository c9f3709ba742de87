//! From an instance and any problem to the task of the problem.
#![tactic(auto)]

pub mod laws;
pub mod prepare;
pub mod routed;
pub mod timed;
