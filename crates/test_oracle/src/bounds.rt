//! The judges and the searches of lower bounds: on tasks that were worked by hand, and against an
//! oracle.
//!
//! For small tasks of problems without a solver the oracle looks at all schedules in which each
//! operation starts as soon as its job and its machine are free. No objective here falls when a job
//! completes later, so one of these schedules is optimal. The oracle knows what they cost, and
//! nothing of bounds. It shares no code with the searches and judges of bounds.
mod asking;
mod clock;
mod families;
mod family;
mod judges;
mod least_cost;
mod searches;
mod small_task;
mod tasks;
mod trial;
