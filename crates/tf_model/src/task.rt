//! A task: an instance cut to what its class uses.
ghost use Rattle.std.specs.Prelude.{◌≡◌, ◌≤◌, pos};
ghost use Rattle.tf_model.specs.Limit.{limit};

use crate::class::Class;
use crate::cost::StepCost;
use crate::ids::{JobId, MachineId};
use crate::job::Times;
use crate::job_rows::{JobRow, JobRows};
use std::alloc::{Allocator, Global};
use std::marker::Model;

fn as_signed(time: u64) -> i64
    requires { time ≤ limit }
    ensures { result ≡ pos time }
{
    time as i64
}

/// An instance cut to what its class uses. Its numbers and totals are within
/// [`crate::limit::LIMIT`].
#[derive(Drop)]
pub struct Task<A: Allocator = Global> {
    class: Class,
    machines: u32,
    jobs: JobRows<A>,
    costs: Vec<StepCost<A>, A>,
    arcs: Vec<(JobId, JobId), A>,
}

impl<A: Allocator> Model for Task<A> {
    ghost use Rattle.tf_model.specs.JobRows.{rows_of};
    ghost use Rattle.tf_model.specs.SchedulingTask.{SchedulingTask};
    ghost use Rattle.tf_model.specs.Sound.{IsSound};

    ghost Value = { SchedulingTask };

    ghost view = { λ t.
        record {
          class = t.class;
          machines = t.machines;
          jobs = rows_of t.jobs;
          costs = t.costs.items;
          arcs = t.arcs.items;
        } };

    ghost invariant = { λ t. IsSound
        (record {
          class = t.class;
          machines = t.machines;
          jobs = rows_of t.jobs;
          costs = t.costs.items;
          arcs = t.arcs.items;
        }) };
}

impl<A: Allocator> Task<A> {
    ghost use Rattle.std.specs.Prelude.{◌≡◌, ◌+◌, ◌-◌, ◌≤◌, length, pos, IsTrue, IsFalse};
    ghost use Rattle.std.specs.List.{sum_by};
    ghost use Rattle.tf_model.specs.JobRows.{rows_of};
    ghost use Rattle.tf_model.specs.SchedulingTask.{IsJob, all_jobs, job_data, time_of, time_on};
    ghost use Rattle.tf_model.specs.ClassTable.{is_costed, is_due, is_released, is_shop, is_sum};
    ghost use Rattle.tf_model.specs.Sound.{IsSound};
    ghost use Rattle.tf_model.specs.Bounds.{load_value};

    /// The task of these parts.
    pub(crate) fn new(
        class: Class,
        machines: u32,
        jobs: JobRows<A>,
        costs: Vec<StepCost<A>, A>,
        arcs: Vec<(JobId, JobId), A>,
    ) -> Self
        requires { IsSound
            (record {
              class = class;
              machines = machines;
              jobs = rows_of jobs;
              costs = costs.items;
              arcs = arcs.items;
            }) }
        ensures { result
            ≡ record {
              class = class;
              machines = machines;
              jobs = rows_of jobs;
              costs = costs.items;
              arcs = arcs.items;
            } }
    {
        Task {
            class,
            machines,
            jobs,
            costs,
            arcs,
        }
    }

    /// Its class.
    pub fn class(&self) -> Class
        ensures class { result ≡ self.now.class }
        ensures sound { IsSound self.now }
    {
        self.class
    }

    /// The number of its jobs, at least 1.
    pub fn len(&self) -> usize
        ensures value { result ≡ length self.now.jobs }
        ensures sound { IsSound self.now }
    {
        self.jobs.len()
    }

    /// The number of its machines: 1 for a single machine, 2 for a shop.
    pub fn machines(&self) -> u32
        ensures value { result ≡ self.now.machines }
        ensures sound { IsSound self.now }
    {
        self.machines
    }

    /// What is known of a job that is there.
    #[inline(always)]
    pub fn job(&self, job: JobId) -> JobRow
        requires { IsJob self.now job }
        ensures value { result ≡ job_data self.now job }
        ensures small { result.first + result.second ≤ limit }
    {
        self.jobs.row(job.place())
    }

    /// The times of a job that is there: one for each machine of a shop, else one.
    pub fn times(&self, job: JobId) -> Times
        requires { IsJob self.now job }
        ensures shop { IsTrue (is_shop self.now.class) →
            result ≡ Times.Two (pos (job_data self.now job).first)
            (pos (job_data self.now job).second) }
        ensures one { IsFalse (is_shop self.now.class) →
            result ≡ Times.One (pos (job_data self.now job).first) }
    {
        let row = self.job(job);
        if self.class.is_shop() {
            Times::Two(as_signed(row.first), as_signed(row.second))
        } else {
            Times::One(as_signed(row.first))
        }
    }

    /// The weight of a job that is there, where the class has weights: 1 where all are equal.
    pub fn weight(&self, job: JobId) -> u64
        requires class { IsTrue (is_sum self.now.class) }
        requires job { IsJob self.now job }
        ensures { result ≡ (job_data self.now job).weight }
    {
        self.job(job).weight
    }

    /// The release date of a job that is there, where the class has release dates.
    pub fn release(&self, job: JobId) -> u64
        requires class { IsTrue (is_released self.now.class) }
        requires job { IsJob self.now job }
        ensures { result ≡ (job_data self.now job).release }
    {
        self.job(job).release
    }

    /// The due date of a job that is there, where the class has due dates.
    pub fn due(&self, job: JobId) -> i64
        requires class { IsTrue (is_due self.now.class) }
        requires job { IsJob self.now job }
        ensures { result ≡ (job_data self.now job).due }
    {
        self.job(job).due
    }

    /// The time of a job that is there, on all machines together.
    pub fn time(&self, job: JobId) -> u64
        requires { IsJob self.now job }
        ensures value { result ≡ time_of self.now job }
        ensures small { result ≤ limit }
    {
        self.job(job).time()
    }

    /// The time of a job that is there on a machine of a shop, which are 1 and 2.
    pub fn time_on(&self, job: JobId, machine: MachineId) -> u64
        requires { IsJob self.now job }
        ensures { result ≡ time_on self.now job (machine - 1) }
    {
        let row = self.job(job);
        if machine.get() == 1 {
            row.first
        } else {
            row.second
        }
    }

    /// The time of all jobs on a machine of a shop, which are 1 and 2.
    pub fn work_on(&self, machine: MachineId) -> u64
        ensures value { result
            ≡ sum_by (λ j. time_on self.now j (machine - 1)) (all_jobs self.now) }
        ensures small { result ≤ limit }
    {
        let mut work: u64 = 0;
        for k in 0..self.len() {
            work += self.time_on(JobId::at(k), machine);
        }
        work
    }

    /// The time of all jobs together.
    pub fn total_time(&self) -> u64
        ensures value { result ≡ sum_by (time_of self.now) (all_jobs self.now) }
        ensures sound { IsSound self.now }
    {
        let mut total: u64 = 0;
        for k in 0..self.len() {
            total += self.time(JobId::at(k));
        }
        total
    }

    /// The time of all jobs shared out among the machines, rounded up to whole time steps.
    pub fn load(&self) -> u64
        ensures value { result ≡ load_value self.now }
        ensures sound { IsSound self.now }
    {
        self.total_time().div_ceil(u64::from(self.machines))
    }

    /// The cost functions, job by job, where the class has them.
    pub fn step_costs(&self) -> &[StepCost<A>]
        requires { IsTrue (is_costed self.now.class) }
        ensures value { result.now ≡ self.now.costs }
        ensures sound { IsSound self.now }
    {
        self.costs.as_slice()
    }

    /// The arcs: the first job of each is over before the second starts. None where the class has
    /// no precedence.
    pub fn arcs(&self) -> &[(JobId, JobId)]
        ensures value { result.now ≡ self.now.arcs }
        ensures sound { IsSound self.now }
    {
        self.arcs.as_slice()
    }
}
