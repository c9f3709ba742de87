//! Instances, costs, classes and tasks of deterministic machine scheduling.
#![tactic(auto)]

pub mod class;
pub mod cost;
pub mod ids;
pub mod instance;
pub mod job;
pub mod job_list;
pub mod job_rows;
mod job_totals;
pub mod limit;
pub mod memory;
pub mod prepare;
pub mod problem;
pub mod task;
pub mod task_builder;
