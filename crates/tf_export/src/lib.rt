//! What the commands print, in the formats of other programs: JSON, and CSV for spreadsheets.
//!
//! Everything here is a function of the text that a command prints.
#![tactic(auto)]

pub mod csv;
pub mod documents;
pub mod entry;
pub mod faults;
mod json;
pub mod line;
mod members;
pub mod order_rows;
mod orders;
mod plan;
pub mod tally;
mod value;
