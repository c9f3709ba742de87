//! Pictures of schedules with the dates of an instance.
#![tactic(auto)]

mod dated_read;
pub mod dates;
pub mod run_dated;
