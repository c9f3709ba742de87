//! Plans: schedules that fit the task of any problem, and what they cost.
//!
//! A plan is always there: all jobs one after another, in an order that keeps the arcs. Pieces that
//! a search found take its place where they fit and cost less, so nothing is asked of a search.
#![tactic(auto)]

pub mod make_plan;
pub mod order;
pub mod plan;
mod serial;
