//! The program's commands over texts in memory, for a caller that has neither files nor a heap.
#![tactic(auto)]

pub mod asking;
pub mod commands;
pub mod reply;
pub mod reserve;
pub mod space;
