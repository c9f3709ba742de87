//! What a schedule of the task of any problem costs.
#![tactic(auto)]

pub mod cost;
