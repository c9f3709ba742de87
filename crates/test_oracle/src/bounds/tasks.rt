//! Small tasks whose optima are known.
use std::alloc::{AllocError, Global};
use std::test::Fail;
use tf_bound::job_times::JobTimes;
use tf_bound::task::{ProblemJob, ProblemTask};
use tf_model::ids::JobId;
use tf_model::problem::{Env, Goal, Problem};

/// The tasks.
#[derive(Clone, Copy, Debug, PartialEq, Eq)]
pub enum Sample {
    /// `1||sumwT`, of optimum 3.
    Tardy,
    /// `F3|prmu|Cmax` with a time 0, of optimum 9.
    Flow,
    /// `1|rj|Lmax`, of optimum 1.
    Released,
    /// `P2||Cmax`: three jobs of time 4, of optimum 8.
    Fours,
    /// `1||sumU`: three jobs of time 2 that are due at 2, of optimum 2.
    Late,
    /// `1|rj|sumwC`: two jobs of time 2, the second released at 1, of optimum 6.
    Overlapping,
    /// `1|prec|sumwC`: job 2 has more weight and less time, but comes after job 1; of optimum 11.
    Behind,
    /// `P2|prmp,prec|sumwC`: four jobs of time 1 and two arcs, of optimum 10.
    Pairs,
    /// `1||sumU`: job 2 is late in an optimal schedule, of optimum 1.
    Crossed,
    /// `1||sumwU`: the same with weights, of which jobs 1 and 4 are late, of optimum 4.
    Weighed,
    /// `1|rj,prmp|sumC`: job 1 is preempted, and the machine is idle from 8 on, of optimum 24.
    Remaining,
    /// `P2|prmp|sumC`: four jobs of times 3, 2, 2 and 1, of optimum 11.
    Dealt,
    /// `F2||sumC`: two jobs that take 1 on the first machine, of optimum 6.
    Passed,
    /// `O2||sumC`: two jobs that need not wait, of optimum 7.
    Opened,
    /// `F3|nwt|Cmax`: three jobs, of optimum 9 in the order 3, 1, 2.
    NoWait,
}

// Its environment, objective and number of machines.
fn frame(sample: Sample) -> (Env, Goal, u32) {
    match sample {
        Sample::Tardy => (Env::Single, Goal::SumWT, 1),
        Sample::Flow => (Env::Flow, Goal::Cmax, 3),
        Sample::Released => (Env::Single, Goal::Lmax, 1),
        Sample::Fours => (Env::Parallel, Goal::Cmax, 2),
        Sample::Late => (Env::Single, Goal::SumU, 1),
        Sample::Overlapping | Sample::Behind => (Env::Single, Goal::SumWC, 1),
        Sample::Pairs => (Env::Parallel, Goal::SumWC, 2),
        Sample::Crossed => (Env::Single, Goal::SumU, 1),
        Sample::Weighed => (Env::Single, Goal::SumWU, 1),
        Sample::Remaining => (Env::Single, Goal::SumC, 1),
        Sample::Dealt => (Env::Parallel, Goal::SumC, 2),
        Sample::Passed => (Env::Flow, Goal::SumC, 2),
        Sample::Opened => (Env::OpenShop, Goal::SumC, 2),
        Sample::NoWait => (Env::Flow, Goal::Cmax, 3),
    }
}

// The processing times, weight, release date and due date of each job.
type Row = (&'static [u64], u64, u64, i64);

const TARDY: &[Row] = &[(&[2], 1, 0, 3), (&[1], 2, 0, 5), (&[3], 2, 0, 3)];

const FLOW: &[Row] = &[
    (&[0, 1, 1], 1, 0, 0),
    (&[2, 2, 1], 1, 0, 0),
    (&[3, 3, 1], 1, 0, 0),
];

const RELEASED: &[Row] = &[(&[4], 1, 0, 10), (&[2], 1, 1, 4), (&[1], 1, 8, 8)];

const FOURS: &[Row] = &[(&[4], 1, 0, 0), (&[4], 1, 0, 0), (&[4], 1, 0, 0)];

const LATE: &[Row] = &[(&[2], 1, 0, 2), (&[2], 1, 0, 2), (&[2], 1, 0, 2)];

const OVERLAPPING: &[Row] = &[(&[2], 1, 0, 0), (&[2], 1, 1, 0)];

const BEHIND: &[Row] = &[(&[2], 1, 0, 0), (&[1], 3, 0, 0)];

const PAIRS: &[Row] = &[
    (&[1], 1, 0, 0),
    (&[1], 1, 0, 0),
    (&[1], 2, 0, 0),
    (&[1], 2, 0, 0),
];

const CROSSED: &[Row] = &[
    (&[2], 1, 0, 3),
    (&[3], 1, 0, 4),
    (&[2], 1, 0, 5),
    (&[1], 1, 0, 5),
];

const WEIGHED: &[Row] = &[
    (&[2], 2, 0, 3),
    (&[3], 5, 0, 4),
    (&[2], 2, 0, 5),
    (&[1], 2, 0, 5),
];

const REMAINING: &[Row] = &[
    (&[4], 1, 0, 0),
    (&[2], 1, 1, 0),
    (&[1], 1, 2, 0),
    (&[1], 1, 9, 0),
];

const DEALT: &[Row] = &[
    (&[3], 1, 0, 0),
    (&[2], 1, 0, 0),
    (&[2], 1, 0, 0),
    (&[1], 1, 0, 0),
];

const PASSED: &[Row] = &[(&[1, 2], 1, 0, 0), (&[1, 1], 1, 0, 0)];

const OPENED: &[Row] = &[(&[2, 1], 1, 0, 0), (&[1, 3], 1, 0, 0)];

const NO_WAIT: &[Row] = &[
    (&[2, 3, 1], 1, 0, 0),
    (&[3, 1, 2], 1, 0, 0),
    (&[1, 2, 2], 1, 0, 0),
];

fn rows_of(sample: Sample) -> &'static [Row] {
    match sample {
        Sample::Tardy => TARDY,
        Sample::Flow => FLOW,
        Sample::Released => RELEASED,
        Sample::Fours => FOURS,
        Sample::Late => LATE,
        Sample::Overlapping => OVERLAPPING,
        Sample::Behind => BEHIND,
        Sample::Pairs => PAIRS,
        Sample::Crossed => CROSSED,
        Sample::Weighed => WEIGHED,
        Sample::Remaining => REMAINING,
        Sample::Dealt => DEALT,
        Sample::Passed => PASSED,
        Sample::Opened => OPENED,
        Sample::NoWait => NO_WAIT,
    }
}

/// A copy of the numbers.
pub fn numbers(alloc: Global, values: &[u64]) -> Result<Vec<u64>, AllocError> {
    Vec::from_slice(alloc, values)
}

fn job_of(alloc: Global, row: &Row) -> Result<ProblemJob, AllocError> {
    let (times, weight, release, due) = *row;
    Ok(ProblemJob {
        times: JobTimes::Each(numbers(alloc, times)?),
        weight,
        release,
        due,
    })
}

fn jobs_of(alloc: Global, rows: &[Row]) -> Result<Vec<ProblemJob>, AllocError> {
    let mut jobs = Vec::new(alloc);
    for row in rows {
        jobs.push(job_of(alloc, row)?)?;
    }
    Ok(jobs)
}

// Its arcs, by places from 0.
fn arcs_of(sample: Sample) -> &'static [(usize, usize)] {
    match sample {
        Sample::Behind => &[(0, 1)],
        Sample::Pairs => &[(0, 2), (1, 3)],
        _ => &[],
    }
}

fn pairs_of(alloc: Global, arcs: &[(usize, usize)]) -> Result<Vec<(JobId, JobId)>, AllocError> {
    let mut pairs = Vec::new(alloc);
    for (before, after) in arcs {
        pairs.push((JobId::at(*before % 10), JobId::at(*after % 10)))?;
    }
    Ok(pairs)
}

/// The task.
pub fn task_of(alloc: Global, sample: Sample) -> Result<ProblemTask, Fail> {
    let (env, goal, machines) = frame(sample);
    let problem = Problem {
        release: matches!(
            sample,
            Sample::Released | Sample::Overlapping | Sample::Remaining
        ),
        prmu: sample == Sample::Flow,
        prmp: matches!(sample, Sample::Pairs | Sample::Remaining | Sample::Dealt),
        prec: matches!(sample, Sample::Behind | Sample::Pairs),
        nwt: sample == Sample::NoWait,
        ..Problem::plain(env, goal)
    };
    let jobs = jobs_of(alloc, rows_of(sample))?;
    let arcs = pairs_of(alloc, arcs_of(sample))?;
    Ok(ProblemTask::new(problem, machines, jobs, arcs)?)
}
