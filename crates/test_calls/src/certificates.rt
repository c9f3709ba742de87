//! A certificate of a task that has a cycle.
use crate::model::timed;
use std::alloc::{AllocError, Global};
use std::test::Fail;
use tf_check::evidence::Evidence;
use tf_check::fault::BoundFault;
use tf_check::last_of::LastOf;
use tf_model::cost::StepCost;
use tf_model::ids::JobId;
use tf_model::instance::Instance;
use tf_model::job::{Job, Times};
use tf_model::job_list::JobList;
use tf_model::prepare::prepare;
use tf_model::problem::{Env, Goal, Problem};
use tf_model::task::Task;

// A job of this time, whose cost has one step.
fn costed(alloc: Global, time: i64, base: i64, step: (i64, i64)) -> Result<Job, Fail> {
    let cost = StepCost::new(base, vec![in alloc; step]?)?;
    Ok(Job {
        cost: Some(Box::new(alloc, cost)?),
        ..timed(Times::One(time))
    })
}

fn three_jobs(alloc: Global) -> Result<Vec<Job>, Fail> {
    let mut jobs = Vec::new(alloc);
    for (time, base, step) in &[(2, 0, (5, 10)), (3, 0, (9, 7)), (4, 1, (9, 8))] {
        jobs.push(costed(alloc, *time, *base, *step)?)?;
    }
    Ok(jobs)
}

// Two of three jobs go in a circle.
fn circle(alloc: Global) -> Result<Task, Fail> {
    let (first, second) = (JobId::at(0), JobId::at(1));
    let arcs = vec![in alloc; (first, second), (second, first)]?;
    let instance = Instance::new(three_jobs(alloc)?, arcs, None)?;
    let problem = Problem {
        prec: true,
        ..Problem::plain(Env::Single, Goal::Hmax)
    };
    Ok(prepare(alloc, &instance, &problem, None)?)
}

fn bounds_nothing(alloc: Global, task: &Task) -> Result<bool, AllocError> {
    let (first, second) = (JobId::at(0), JobId::at(1));
    let last = LastOf {
        jobs: JobList::new(vec![in alloc; first, second]?),
    };
    Ok(last.bound(alloc, task) == Err(BoundFault::Condition(first)))
}

#[test]
fn a_set_whose_jobs_go_in_a_circle_bounds_nothing(rt: HostRuntime) -> Result<(), Fail> {
    let task = circle(rt.alloc())?;
    assert!(rt; bounds_nothing(rt.alloc(), &task)?);
    Ok(())
}
