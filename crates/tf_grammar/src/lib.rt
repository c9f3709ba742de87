//! The commands and options of `threefield`, for clap, and its help.
//!
//! No other crate of the repository is below this one, so it is proved beside those that everything
//! else stands on.
#![tactic(auto)]

pub mod grammar;
mod help;
mod page;
mod row;
