//! The commands of `threefield`, over whatever gives and takes bytes: what is done, what is said of
//! it, and the exit status.
#![tactic(auto)]

mod bounding;
pub mod commands;
pub mod console;
pub mod ending;
mod explained;
pub mod formatted;
pub mod gathered;
mod picturing;
pub mod planning;
pub mod problems;
mod rating;
pub mod reading;
mod recorded;
pub mod report;
pub mod source;
