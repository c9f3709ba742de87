//! The lists of the problems that are solved or bounded: what each needs of an instance, and what
//! it means.
#![tactic(auto)]

mod fields;
pub mod listing;
mod unsolved;
mod words;
