//! Solving, from the bytes of a problem and an instance to the bytes of an answer, and judging an
//! answer.
#![tactic(auto)]

pub mod case;
pub mod fault;
pub mod form_read;
pub mod output;
pub mod request;
pub mod run_check;
pub mod run_gantt;
pub mod run_solve;
pub mod schedule_said;
pub mod sheet_read;
pub mod solve;
pub mod task_for;
pub mod text;
pub mod verdict_line;
