//! A task that grows job by job, as long as nothing is refused.
ghost use Rattle.std.specs.Prelude.{◌≡◌, ℕ, List, Option, [], ◌∷◌, Ok, IfSome};
ghost use Rattle.tf_model.specs.StepFaults.{IsStepCost};
ghost use Rattle.tf_model.specs.InstanceData.{InstanceData};
ghost use Rattle.tf_model.specs.declared.problem.Problem.{Problem};
ghost use Rattle.tf_model.specs.Prepare.{kept_arcs, steps_of, prepared};
ghost use Rattle.tf_model.specs.TaskBuilder.{HasTaken, HasJudged, CanFinish, Takes};

use crate::class::{Class, class_of};
use crate::cost::StepCost;
use crate::ids::JobId;
use crate::instance::{has_beyond, has_negative};
use crate::job::Job;
use crate::job_rows::JobRows;
use crate::job_totals::JobTotals;
use crate::limit::{MOST_COSTED_JOBS, MOST_JOBS};
use crate::prepare::{is_complete, is_too_many, machines_for, row_of};
use crate::problem::Problem;
use crate::task::Task;
use std::alloc::{Allocator, Global};

/// A task that grows job by job and keeps of each only what its class uses. Nothing of it is
/// refused so far: where something is, it gives nothing, and [`crate::prepare::prepare`] tells
/// what.
#[derive(Drop)]
pub struct TaskBuilder<A: Allocator = Global> {
    alloc: A,
    class: Class,
    machines: u32,
    totals: JobTotals,
    rows: JobRows<A>,
    costs: Vec<StepCost<A>, A>,
}

// The cost of a job, and that of none where it has none.
fn cost_of<A: Allocator>(alloc: A, job: Job<A>) -> StepCost<A>
    ensures value { result ≡ steps_of job }
    ensures sound { IsStepCost (steps_of job) }
{
    match job.cost {
        Some(kept) => {
            let cost = Box::into_inner(kept);
            cost.is_sound();
            cost
        }
        None => StepCost::nothing(alloc),
    }
}

// The arcs, where the class keeps them.
fn kept_arcs<A: Allocator>(class: Class, mut arcs: Vec<(JobId, JobId), A>) -> Vec<(JobId, JobId), A>
    ensures { result.items ≡ kept_arcs class arcs.items }
{
    if !class.is_ordered() {
        arcs.clear();
    }
    arcs
}

impl<A: Allocator + Copy> TaskBuilder<A> {
    /// Of no job yet, with room for so many: for a problem and the numbers of machines that the
    /// caller and the instance give. None where these are refused, or memory is wanting.
    pub fn new(
        alloc: A,
        problem: &Problem,
        argument: Option<u32>,
        machines: Option<u32>,
        room: usize,
    ) -> Option<Self>
        ensures { IfSome result (λ builder. HasTaken problem.now argument machines builder []) }
    {
        let class = class_of(problem)?;
        let machines = machines_for(class, problem.count, argument, machines).ok()?;
        let costs = if class.is_costed() {
            room.min(MOST_COSTED_JOBS)
        } else {
            0
        };
        Some(TaskBuilder {
            alloc,
            class,
            machines,
            totals: JobTotals::new(),
            rows: JobRows::new(alloc, class, room).ok()?,
            costs: Vec::with_capacity(alloc, costs).ok()?,
        })
    }

    /// With one job more. None where the job by itself is refused, or memory is wanting.
    #[inline(always)]
    pub fn push(&mut self, job: Job<A>) -> Option<()>
        ensures { IfSome result (λ _. Takes self.old (job ∷ []) self.new) }
    {
        if self.totals.jobs == MOST_JOBS || !is_complete(self.class, &job) {
            return None;
        }
        let row = row_of(self.class, &job);
        self.totals = self.totals.with(row);
        self.rows.push(self.class, row).ok()?;
        if self.class.is_costed() {
            self.costs.push(cost_of(self.alloc, job)).ok()?;
        }
        Some(())
    }

    /// The task of the jobs and these arcs. None where it is refused.
    pub fn finish(self, arcs: Vec<(JobId, JobId), A>) -> Option<Task<A>>
        requires { CanFinish self arcs.items }
        ensures { (problem : Problem) (argument : Option ℕ) (i : InstanceData) →
            HasTaken problem argument i.machines self i.jobs → i.arcs ≡ arcs.items →
            IfSome result (λ task. prepared i problem argument ≡ Ok task) }
    {
        if is_too_many(self.class, self.totals.jobs) || self.totals.is_too_large(self.class) {
            return None;
        }
        let arcs = kept_arcs(self.class, arcs);
        Some(Task::new(self.class, self.machines, self.rows, self.costs, arcs))
    }

    /// Of no job yet, with room for so many, for a problem that needs no number of machines. None
    /// where it is refused, or memory is wanting.
    pub fn judging(alloc: A, problem: &Problem, room: usize) -> Option<Self>
        ensures { IfSome result HasJudged }
    {
        TaskBuilder::new(alloc, problem, None, None, room)
    }

    /// With one job more, which is judged as one of an instance is. None where it is refused, or
    /// memory is wanting.
    pub fn push_judged(&mut self, job: Job<A>) -> Option<()>
        ensures { IfSome result (λ _. HasJudged self.old → HasJudged self.new) }
    {
        if has_negative(&job) || has_beyond(&job) {
            return None;
        }
        self.push(job)
    }

    /// The task of jobs that were all judged, without arcs. None where it is refused.
    pub fn finish_judged(self) -> Option<Task<A>>
        requires { HasJudged self }
    {
        if self.totals.jobs == 0 {
            return None;
        }
        let arcs = Vec::new(self.alloc);
        self.finish(arcs)
    }
}
