//! An instance: jobs, arcs and a number of machines, whatever problem it is for.
ghost use Rattle.std.specs.Prelude.{◌≡◌, ℕ, ◌+◌, ◌<◌, ◌≤◌, ◌||◌, ◌==◌, nat_lt, length, Some, None};
ghost use Rattle.std.specs.Prelude.{Option, MatchResult, position};
ghost use Rattle.std.specs.Option.{option_map, ForSome};
ghost use Rattle.tf_model.specs.InstanceData.{is_beyond, has_negative, has_beyond, is_bad_arc};
ghost use Rattle.tf_model.specs.InstanceData.{counts_fault};

use crate::ids::JobId;
use crate::job::{Job, Times};
use crate::limit::{LIMIT, MOST_ARCS, MOST_JOBS, MOST_MACHINES};
use std::alloc::{Allocator, Global};
use std::marker::Model;
use thiserror::Error;

/// Why jobs, arcs and a number of machines are no instance.
#[derive(Clone, Copy, Debug, PartialEq, Eq, Error)]
pub enum InstanceFault {
    #[error("there is no job")]
    NoJobs,
    /// More than `MOST_JOBS`.
    #[error("there are too many jobs")]
    TooManyJobs,
    /// 0, or more than `MOST_MACHINES`.
    #[error("the number of machines is 0 or too large")]
    TooManyMachines,
    /// More than `MOST_ARCS`.
    #[error("there are too many arcs")]
    TooManyArcs,
    /// A time, the weight or the release date of this job is negative.
    #[error("a number of job {} is negative", .0.get())]
    NegativeNumber(JobId),
    /// A number of this job is beyond the limit.
    #[error("a number of job {} is beyond the limit", .0.get())]
    OutOfRange(JobId),
    /// This arc, counted from 1, names a job that is not there.
    #[error("arc {0} names a job that is not there")]
    BadArc(usize),
}

/// An instance. Its numbers are within [`LIMIT`], and its arcs name jobs that are there.
#[derive(Drop)]
pub struct Instance<A: Allocator = Global> {
    jobs: Vec<Job<A>, A>,
    arcs: Vec<(JobId, JobId), A>,
    machines: Option<u32>,
}

impl<A: Allocator> Model for Instance<A> {
    ghost use Rattle.tf_model.specs.InstanceData.{InstanceData, IsInstance};

    ghost Value = { InstanceData };

    ghost view = { λ i.
        record { jobs = i.jobs.items; arcs = i.arcs.items; machines = i.machines } };

    ghost invariant = { λ i. IsInstance
        (record { jobs = i.jobs.items; arcs = i.arcs.items; machines = i.machines }) };
}

impl<A: Allocator> Instance<A> {
    ghost use Rattle.std.specs.Prelude.{◌≡◌, ◌-◌, ◌<◌, ◌≤◌, length, Some, MatchResult, slice_get};
    ghost use Rattle.tf_model.specs.InstanceData.{InstanceData, IsInstance, instance_fault};

    /// The instance of these jobs and arcs, with this number of machines if one is given, where
    /// they are known to be one: nothing is judged.
    pub fn of(jobs: Vec<Job<A>, A>, arcs: Vec<(JobId, JobId), A>, machines: Option<u32>) -> Self
        requires { IsInstance
            (record { jobs = jobs.items; arcs = arcs.items; machines = machines }) }
        ensures { result ≡ record { jobs = jobs.items; arcs = arcs.items; machines = machines } }
    {
        Instance {
            jobs,
            arcs,
            machines,
        }
    }

    /// The instance of these jobs and arcs, with this number of machines if one is given, or the
    /// first fault: each kind over all jobs before the next kind, with the smallest job. It takes
    /// no memory.
    pub fn new(
        jobs: Vec<Job<A>, A>,
        arcs: Vec<(JobId, JobId), A>,
        machines: Option<u32>,
    ) -> Result<Self, InstanceFault>
        ensures { MatchResult result
            (λ i. i ≡ record { jobs = jobs.items; arcs = arcs.items; machines = machines }
            × IsInstance i)
            (λ fault. instance_fault
            (record { jobs = jobs.items; arcs = arcs.items; machines = machines }) ≡ Some fault) }
    {
        if let Some(fault) = count_fault(jobs.len(), machines, arcs.len()) {
            return Err(fault);
        }
        if let Some(job) = numbered(negative_at(&jobs)) {
            return Err(InstanceFault::NegativeNumber(job));
        }
        if let Some(job) = numbered(beyond_at(&jobs)) {
            return Err(InstanceFault::OutOfRange(job));
        }
        if let Some(place) = bad_arc_at(&arcs, jobs.len()) {
            return Err(InstanceFault::BadArc(place + 1));
        }
        Ok(Instance {
            jobs,
            arcs,
            machines,
        })
    }

    /// The number of its jobs, at least 1.
    pub fn len(&self) -> usize
        ensures value { result ≡ length self.now.jobs }
        ensures sound { IsInstance self.now }
    {
        self.jobs.len()
    }

    /// A job that is there.
    pub fn job(&self, job: JobId) -> &Job<A>
        requires { job ≤ length self.now.jobs }
        ensures { slice_get self.now.jobs (job - 1) ≡ Some result.now }
    {
        &self.jobs[job.place()]
    }

    /// All jobs, in the order of their numbers.
    pub fn jobs(&self) -> &[Job<A>]
        ensures value { result.now ≡ self.now.jobs }
        ensures sound { IsInstance self.now }
    {
        self.jobs.as_slice()
    }

    /// The arcs: the first job of each is over before the second starts.
    pub fn arcs(&self) -> &[(JobId, JobId)]
        ensures value { result.now ≡ self.now.arcs }
        ensures sound { IsInstance self.now }
    {
        self.arcs.as_slice()
    }

    /// The number of machines, where the instance has one.
    pub fn machines(&self) -> Option<u32>
        ensures value { result ≡ self.now.machines }
        ensures sound { IsInstance self.now }
    {
        self.machines
    }
}

// Whether there are too few or too many jobs, machines or arcs.
fn count_fault(jobs: usize, machines: Option<u32>, arcs: usize) -> Option<InstanceFault>
    ensures { result ≡ counts_fault jobs machines arcs }
{
    if jobs == 0 {
        return Some(InstanceFault::NoJobs);
    }
    if jobs > MOST_JOBS {
        return Some(InstanceFault::TooManyJobs);
    }
    if machines.is_some_and(|m| m == 0 || m > MOST_MACHINES) {
        return Some(InstanceFault::TooManyMachines);
    }
    if arcs > MOST_ARCS {
        return Some(InstanceFault::TooManyArcs);
    }
    None
}

/// Whether its absolute value is above [`LIMIT`].
pub(crate) fn is_beyond(number: i64) -> bool
    ensures { result ≡ is_beyond number }
{
    number.unsigned_abs() > LIMIT as u64
}

/// Whether a time, the weight or the release date is negative.
pub(crate) fn has_negative<A: Allocator>(job: &Job<A>) -> bool
    ensures { result ≡ has_negative job.now }
{
    let time = match job.times {
        Times::One(time) => time < 0,
        Times::Two(first, second) => first < 0 || second < 0,
    };
    time || job.weight.is_some_and(|w| w < 0) || job.release.is_some_and(|r| r < 0)
}

/// Whether a number of the job is beyond the limit.
pub(crate) fn has_beyond<A: Allocator>(job: &Job<A>) -> bool
    ensures { result ≡ has_beyond job.now }
{
    let time = match job.times {
        Times::One(time) => is_beyond(time),
        Times::Two(first, second) => is_beyond(first) || is_beyond(second),
    };
    time || job.weight.is_some_and(is_beyond)
        || job.due.is_some_and(is_beyond)
        || job.release.is_some_and(is_beyond)
}

/// The job at a place, counted from 0, where there is one.
pub(crate) fn numbered(place: Option<usize>) -> Option<JobId>
    requires { ForSome place (λ k. k < MOST_JOBS) }
    ensures { result ≡ option_map (λ k. k + 1) place }
{
    match place {
        Some(place) => Some(JobId::at(place)),
        None => None,
    }
}

fn negative_at<A: Allocator>(jobs: &[Job<A>]) -> Option<usize>
    ensures value { result ≡ position has_negative jobs.now }
    ensures within { ForSome result (λ k. k < length jobs.now) }
{
    jobs.iter().position(|job| has_negative(job))
}

fn beyond_at<A: Allocator>(jobs: &[Job<A>]) -> Option<usize>
    ensures value { result ≡ position has_beyond jobs.now }
    ensures within { ForSome result (λ k. k < length jobs.now) }
{
    jobs.iter().position(|job| has_beyond(job))
}

fn is_bad_arc(arc: &(JobId, JobId), jobs: usize) -> bool
    ensures { result ≡ is_bad_arc jobs arc.now }
{
    arc.0.get() as usize > jobs || arc.1.get() as usize > jobs
}

fn bad_arc_at(arcs: &[(JobId, JobId)], jobs: usize) -> Option<usize>
    ensures value { result ≡ position (is_bad_arc jobs) arcs.now }
    ensures within { ForSome result (λ k. k < length arcs.now) }
{
    arcs.iter().position(|arc| is_bad_arc(arc, jobs))
}
