//! Solvers for several machines.
#![tactic(auto)]

pub mod johnson;
mod longest;
pub mod mcnaughton;
pub mod open_two;
pub mod spt;
mod two_machines;
