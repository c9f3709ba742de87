//! Searches that improve a list of jobs or operations: iterated greedy, simulated annealing.
//!
//! Nothing is promised of the lists: `tf_plan` judges the schedules.
#![tactic(auto)]

mod anneal;
mod change;
mod greedy;
pub mod improve;
mod pass;
pub mod random;
mod search;
mod states;
pub mod watch;
mod whole;
