//! Oracles for tests: one looks at all timetables of small tasks, and one at all orders of small
//! tasks of problems without a solver.
//!
//! The first knows what a timetable is, when one fits, and what it costs, and nothing of how a best
//! one is found or shown to be best. It shares no code with the solvers and the checker.
#![tactic(auto)]

#[cfg(test)]
mod arrangement;
#[cfg(test)]
mod bounds;
#[cfg(test)]
mod family;
#[cfg(test)]
mod small_task;
#[cfg(test)]
mod tests;
#[cfg(test)]
mod timetable;
