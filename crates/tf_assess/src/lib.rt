//! How an answer to a problem without a solver stands to its task, from bytes to bytes.
#![tactic(auto)]

pub mod assess;
pub mod bound_read;
mod case_read;
pub mod measures;
pub mod offered;
mod outcomes;
mod placed;
pub mod run_assess;
pub mod run_rate;
mod writing;
