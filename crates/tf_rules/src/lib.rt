//! Rules that give a first list of jobs or operations.
//!
//! Nothing is promised of the lists: a search tries them all and begins with the best.
#![tactic(auto)]

mod dispatch;
mod due_dates;
mod keys;
mod listing;
mod remaining;
pub mod rule;
mod urgency;
