//! What a command line of `threefield` asks for: its commands and options, and what clap's matches
//! of them mean.
#![tactic(auto)]

pub mod aids;
pub mod command_line;
mod formatting;
pub mod options;
pub mod series;
mod viewing;
mod wanting;
mod wrong;
