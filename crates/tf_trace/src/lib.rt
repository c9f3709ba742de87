//! How an optimal schedule is found, step by step, as on a blackboard.
#![tactic(auto)]

pub mod board;
mod certificate;
mod exchange;
mod flow_shop;
mod from_the_back;
mod latex;
mod open_shop;
mod parallel;
mod released;
pub mod run_trace;
mod shortened;
mod smith;
pub mod table;
mod trace;
