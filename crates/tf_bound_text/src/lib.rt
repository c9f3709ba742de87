//! The text of a lower bound, read.
#![tactic(auto)]

mod certificate;
pub mod fault;
mod number;
pub mod reading;
pub mod sheet;
