//! Commands over texts that are read once and held in memory: a line for each of several instances,
//! an evaluation with the value of each objective, and evaluations for a shop of as many machines
//! as their file has.
#![tactic(auto)]

mod answers;
mod headings;
mod held;
pub mod measured;
mod misuse;
pub mod program;
pub mod series;
pub mod shops;
mod words_split;
