//! The strongest bounds of a family's tasks, each held against all schedules.
use super::asking::bound_of;
use super::family::Family;
use super::least_cost::survey_of;
use std::alloc::Global;
use std::test::Fail;
use tf_model::problem::Problem;

/// How much was looked at.
#[derive(Clone, Copy, Debug, Default, PartialEq, Eq)]
pub struct Tally {
    /// Orders of all tasks together.
    pub orders: u64,
    /// Tasks whose bound is the least cost.
    pub met: u64,
}

// Counts one task, and tells whether its bound is not above its least cost.
fn count(alloc: Global, family: &Family, number: u64, tally: &mut Tally) -> Result<bool, Fail> {
    let task = family.task(alloc, number)?;
    let survey = survey_of(alloc, &task)?;
    let bound = bound_of(alloc, &task)?;
    let least = survey.least.map(i128::from);
    tally.orders = tally.orders.saturating_add(survey.orders);
    tally.met = tally.met.saturating_add(u64::from(bound == least));
    Ok(bound.is_some() && least.is_some() && bound <= least)
}

// Ends a test where this is not so, and tells how much was looked at until then, and of what.
fn told(is_so: bool, problem: Problem, tally: Tally) -> Result<(), (Problem, Tally)> {
    if is_so { Ok(()) } else { Err((problem, tally)) }
}

/// No bound of the family's tasks is above the least cost. There are as many orders as is wanted,
/// and at least as many bounds are the least cost.
pub fn examine(alloc: Global, family: &Family, wanted: Tally) -> Result<(), Fail> {
    let mut tally = Tally::default();
    let mut holds = true;
    for number in 0..family.size.tasks {
        holds = holds && count(alloc, family, number, &mut tally)?;
    }
    let is_enough = tally.orders == wanted.orders && tally.met >= wanted.met;
    Ok(told(holds && is_enough, family.problem, tally)?)
}
