//! The numbers of an instance as a file of OR-Library has them, of which its jobs are made.
ghost use Rattle.std.specs.Prelude.{◌≡◌, ◌<◌, ◌≤◌, map, IfSome, vec_len, vec_capacity};
ghost use Rattle.std.specs.List.{range_with_len};
ghost use Rattle.tf_model.specs.TaskBuilder.{Takes};
ghost use Rattle.tf_read.specs.InstanceNumbers.{job_of, HasJobs};

use std::alloc::{Allocator, Global};
use std::marker::Model;
use tf_model::instance::Instance;
use tf_model::job::{Job, Times};
use tf_model::prepare::{Refusal, prepare};
use tf_model::problem::Problem;
use tf_model::task::Task;
use tf_model::task_builder::TaskBuilder;

/// The numbers of jobs, column by column.
#[derive(Drop)]
pub(crate) enum Columns<A: Allocator> {
    /// The times, behind them the weights, and behind these the due dates.
    Tardiness(Vec<i64, A>),
    /// The times on two machines of so many; where there is but one, it is both.
    Shop(u32, Vec<i64, A>, Vec<i64, A>),
}

impl<A: Allocator> Columns<A> {
    /// One of so many jobs, from 0.
    fn job(&self, jobs: usize, j: usize) -> Job<A>
        requires all { HasJobs jobs self.now }
        requires there { j < jobs }
        ensures { result ≡ job_of jobs self.now j }
    {
        match self {
            Columns::Tardiness(numbers) => Job {
                times: Times::One(numbers[j]),
                weight: Some(numbers[jobs + j]),
                due: Some(numbers[2 * jobs + j]),
                release: None,
                cost: None,
            },
            Columns::Shop(machines, firsts, seconds) => Job {
                times: if *machines == 1 {
                    Times::One(firsts[j])
                } else {
                    Times::Two(firsts[j], seconds[j])
                },
                weight: None,
                due: None,
                release: None,
                cost: None,
            },
        }
    }

    /// So many jobs, in room that was made for them.
    fn jobs(&self, mut room: Vec<Job<A>, A>, jobs: usize) -> Vec<Job<A>, A>
        requires all { HasJobs jobs self.now }
        requires empty { vec_len room ≡ 0 }
        requires room { jobs ≤ vec_capacity room }
        ensures { result.items ≡ map (job_of jobs self.now) (range_with_len 0 jobs) }
    {
        for j in 0..jobs {
            room.push(self.job(jobs, j)).unwrap();
        }
        room
    }
}

impl<A: Allocator + Copy> Columns<A> {
    /// Gives so many jobs to a task. None where one of them is refused, or memory is wanting.
    fn give(&self, jobs: usize, builder: &mut TaskBuilder<A>) -> Option<()>
        requires { HasJobs jobs self.now }
        ensures { IfSome result (λ _. Takes builder.old
            (map (job_of jobs self.now) (range_with_len 0 jobs)) builder.new) }
    {
        for j in 0..jobs {
            builder.push(self.job(jobs, j))?;
        }
        Some(())
    }
}

/// The numbers of an instance, which is their value. There is room for its jobs, which is not
/// written before the instance is made.
#[derive(Drop)]
pub struct InstanceNumbers<A: Allocator = Global> {
    pub(crate) columns: Columns<A>,
    pub(crate) jobs: usize,
    pub(crate) machines: Option<u32>,
    /// Room for the jobs.
    pub(crate) room: Vec<Job<A>, A>,
}

impl<A: Allocator> Model for InstanceNumbers<A> {
    ghost use Rattle.std.specs.Prelude.{◌≡◌, ◌≤◌, vec_len, vec_capacity};
    ghost use Rattle.tf_model.specs.InstanceData.{InstanceData, IsInstance};
    ghost use Rattle.tf_read.specs.InstanceNumbers.{HasJobs, numbered};

    ghost Value = { InstanceData };

    ghost view = { λ f. numbered f.columns f.jobs f.machines };

    ghost invariant = { λ f. record {
      all : HasJobs f.jobs f.columns;
      sound : IsInstance (numbered f.columns f.jobs f.machines);
      no_job : vec_len f.room ≡ 0;
      jobs_room : f.jobs ≤ vec_capacity f.room;
    } };
}

impl<A: Allocator> InstanceNumbers<A> {
    /// The instance. It takes no memory.
    pub fn into_instance(self, alloc: A) -> Instance<A>
        ensures { result ≡ self }
    {
        let InstanceNumbers {
            columns,
            jobs,
            machines,
            room,
        } = self;
        Instance::of(columns.jobs(room, jobs), Vec::new(alloc), machines)
    }
}

impl<A: Allocator + Copy> InstanceNumbers<A> {
    ghost use Rattle.std.specs.Prelude.{◌≡◌, Ok, IfSome};
    ghost use Rattle.tf_model.specs.Prepare.{prepared, Prepares};

    /// The task of a problem and the instance, which is not made. None where it is refused, or
    /// memory is wanting.
    fn built(&self, alloc: A, problem: &Problem, machines: Option<u32>) -> Option<Task<A>>
        ensures { IfSome result (λ task. prepared self.now problem.now machines ≡ Ok task) }
    {
        let mut builder = TaskBuilder::new(alloc, problem, machines, self.machines, self.jobs)?;
        self.columns.give(self.jobs, &mut builder)?;
        builder.finish(Vec::new(alloc))
    }

    /// The task of a problem and the instance, where the caller gives this number of machines or
    /// none, or the refusal, as [`prepare`] gives it. Where there is none, no instance is made.
    pub fn into_task(
        self,
        alloc: A,
        problem: &Problem,
        machines: Option<u32>,
    ) -> Result<Task<A>, Refusal>
        ensures { Prepares result (prepared self problem.now machines) }
    {
        if let Some(task) = self.built(alloc, problem, machines) {
            return Ok(task);
        }
        let instance = self.into_instance(alloc);
        prepare(alloc, &instance, problem, machines)
    }
}
