//! What crates of tests over the runs share: worked examples, devices that fail, growths that are
//! refused.
#![tactic(auto)]

pub mod devices;
pub mod examples;
pub mod growths;
pub mod runs;
