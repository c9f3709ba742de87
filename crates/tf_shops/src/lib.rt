//! The search for a job shop's schedule of least makespan or maximum lateness: tabu search on the
//! longest paths of its disjunctive graph.
//!
//! Nothing is promised of the lists: `tf_plan` judges the schedules.
#![tactic(auto)]

mod graph;
mod links;
pub mod tabu;
