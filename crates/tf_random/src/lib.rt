//! Random job tables and flow shop files for a problem: the same seed gives the same text
//! everywhere.
//!
//! Number n of a seed is output n of the generator SplitMix64 (Steele, Lea and Flood 2014).
#![tactic(auto)]

mod draw;
mod fields;
mod line;
mod plan;
pub mod run_random;
mod table;
mod times;
mod writing;
