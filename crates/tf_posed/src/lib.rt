//! What a task of any problem asks, as it is written, and what a timetable of it costs; and that a
//! task of a class means the same.
#![tactic(auto)]

pub mod laws;
