//! How good an answer is: what it costs, what the least cost is, and what happens to each job.
#![tactic(auto)]

mod arithmetic;
pub mod evaluate;
pub mod evaluation;
mod outcomes;
pub mod reference;
pub mod run_evaluate;
pub mod step;
pub mod writing;
