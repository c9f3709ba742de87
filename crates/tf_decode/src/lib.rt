//! Lists of jobs or operations, and the semi-active schedules that decoders make of them.
//!
//! A decoder appends one item of a list after another to the state of the machines, each as early
//! as it goes. Nothing is promised of the schedules: `tf_plan` judges them. So numbers may wrap
//! where a task is within its limits and the numbers are not.
#![tactic(auto)]

pub mod append;
pub mod arcs;
pub mod gaps;
pub mod lay;
pub mod measure;
pub mod preemption;
pub mod routes;
pub mod slots;
pub mod table;
