//! What the task of any problem asks, what a timetable of it costs, and the laws of lower bounds.
#![tactic(auto)]

pub mod laws;
