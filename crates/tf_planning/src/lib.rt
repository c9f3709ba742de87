//! A plan of any problem that has bounds, and how good it is, from bytes to bytes.
#![tactic(auto)]

mod candidate;
pub mod made;
pub mod progress;
pub mod run_plan;
pub mod writing;
