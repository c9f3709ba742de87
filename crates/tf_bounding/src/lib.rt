//! A lower bound of any problem that is written, from bytes to bytes.
#![tactic(auto)]

pub mod feasible;
pub mod instance_read;
pub mod run_bound;
mod shop_words;
pub mod timed_read;
pub mod writing;
