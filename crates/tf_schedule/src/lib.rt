//! Pieces of work on machines, the timetable that they draw, and how it stands to a task.
#![tactic(auto)]

pub mod asks;
mod condition;
pub mod cost;
pub mod extent;
pub mod fit;
mod job_order;
pub mod judge;
pub mod lanes;
mod line;
mod machine_range;
pub mod misfit;
mod operations;
pub mod piece;
pub mod piece_list;
pub mod schedule;
pub mod semi_active;
pub mod sequence;
