//! Orders of jobs by the rules that textbooks name.
#![tactic(auto)]

pub mod rule;
pub mod ruled_job;
