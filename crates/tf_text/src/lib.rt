//! The texts that go in and out: whole inputs, and answers.
#![tactic(auto)]

pub mod answer;
pub mod chart;
pub mod counted;
pub mod input;
