//! Solvers for one machine.
#![tactic(auto)]

mod arcs_into;
mod backward;
mod by_cost;
mod by_due;
mod costed_job;
mod cycle;
pub mod edd;
mod free_jobs;
mod greatest_first;
pub mod lawler;
pub mod lawler_fault;
mod timeline;
pub mod wspt;
