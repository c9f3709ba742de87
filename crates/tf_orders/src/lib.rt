//! Orders of jobs, their semi-active schedules, and how good these are, from bytes to bytes.
#![tactic(auto)]

pub mod again;
mod case_read;
pub mod flaw;
mod grading;
mod laying;
pub mod measure;
mod numbering;
mod operations;
pub mod order;
mod ordered;
mod pieces;
mod rating;
mod ruled;
pub mod run_orders;
mod schedules;
mod writing;
