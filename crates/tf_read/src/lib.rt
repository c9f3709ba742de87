//! Reading instances: job tables, OR-Library's weighted tardiness files and flow shop files.
#![tactic(auto)]

mod arc;
mod cost_field;
pub mod fault;
mod field;
pub mod flow_shop;
mod flow_stage;
mod heading;
pub mod instance_numbers;
pub mod job_table;
mod number;
mod numbers;
mod pairs;
mod sizes;
pub mod table_task;
mod usual;
pub mod weighted_tardiness;
mod word_feed;
