//! What is asked of each job.
ghost use Rattle.std.specs.Prelude.{◌≡◌, ◌<◌, ◌↔◌, length, not, IsTrue};
ghost use Rattle.tf_model.specs.ClassTable.{is_shop_env};
ghost use Rattle.tf_model.specs.Feasible.{EachJob};
ghost use Rattle.tf_posed.specs.ProblemData.{IsProblemJob, problem_job, route_of};
ghost use Rattle.tf_schedule.specs.Asks.{IsLimited};
ghost use Rattle.tf_schedule.specs.Condition.{FindsSmallestNot, HaveTimes, AreGapless, AreInOrder};
ghost use Rattle.tf_schedule.specs.Condition.{is_asked, IsMet, IsPlainMet};
ghost use Rattle.tf_schedule.specs.Operation.{first_operation};

use crate::asks::Asks;
use crate::lanes::Lanes;
use crate::operations::first_operation;
use std::alloc::Allocator;
use tf_model::ids::JobId;
use tf_model::problem::{Env, Problem};

/// What is asked of each job.
#[derive(Clone, Copy)]
pub(crate) enum Condition {
    /// It is processed for all its time, in a shop on each machine.
    Amount,
    /// It works without a gap on each machine, and outside shops on one; without preemption.
    Unbroken,
    /// It does not start before its release date.
    Released,
    /// It visits the machines of its route in their order; in a flow shop and in a job shop.
    OnRoute,
    /// It does not wait between its first start and its completion.
    WithoutWait,
}

// Whether the operations of a job in a shop have its times.
fn have_times<T: Asks, B: Allocator>(task: &T, operations: &Lanes<B>, job: JobId) -> bool
    requires job { IsProblemJob (T.posed task.now) job }
    requires shop { IsTrue (is_shop_env (T.posed task.now).problem.env) }
    ensures { IsTrue result ↔ HaveTimes operations.now
        (first_operation (T.posed task.now).machines job) (T.posed task.now).machines
        (problem_job (T.posed task.now) job).times }
{
    let machines = task.machines();
    let first = first_operation(machines, job);
    for i in 0..machines as usize {
        if operations.extent(JobId::at(first + i)).work != task.time_on(job, i) {
            return false;
        }
    }
    true
}

// Whether the operations of a job in a shop have no gap.
fn are_gapless<T: Asks, B: Allocator>(task: &T, operations: &Lanes<B>, job: JobId) -> bool
    requires { IsProblemJob (T.posed task.now) job }
    ensures { IsTrue result ↔ AreGapless operations.now
        (first_operation (T.posed task.now).machines job) (T.posed task.now).machines }
{
    let machines = task.machines();
    let first = first_operation(machines, job);
    for i in 0..machines as usize {
        if !operations.extent(JobId::at(first + i)).is_gapless() {
            return false;
        }
    }
    true
}

// Whether each operation of a job starts after those before it on its route are over.
fn are_in_order<T: Asks, B: Allocator>(task: &T, operations: &Lanes<B>, job: JobId) -> bool
    requires { IsProblemJob (T.posed task.now) job }
    ensures { IsTrue result ↔ AreInOrder operations.now
        (first_operation (T.posed task.now).machines job) (route_of (T.posed task.now) job) }
{
    let first = first_operation(task.machines(), job);
    let mut latest: u64 = 0;
    for i in 0..task.visits(job) {
        let extent = operations.extent(JobId::at(first + task.visited(job, i)));
        if extent.start < latest {
            return false;
        }
        if latest < extent.stop {
            latest = extent.stop;
        }
    }
    true
}

impl Condition {
    ghost use Rattle.std.specs.Prelude.{◌≡◌, ◌↔◌, IsTrue};
    ghost use Rattle.tf_model.specs.ClassTable.{is_shop_env};
    ghost use Rattle.tf_posed.specs.ProblemData.{IsProblemJob};
    ghost use Rattle.tf_schedule.specs.Condition.{IsMet, is_asked};

    // Whether the problem asks for it.
    fn is_asked(self, problem: &Problem) -> bool
        ensures { result ≡ is_asked self problem.now }
    {
        match self {
            Condition::Amount => true,
            Condition::Unbroken => !problem.prmp,
            Condition::Released => problem.release,
            Condition::OnRoute => matches!(problem.env, Env::Flow | Env::JobShop),
            Condition::WithoutWait => problem.nwt,
        }
    }

    // Whether it holds of a job.
    fn is_met<T: Asks, B: Allocator>(
        self,
        task: &T,
        is_shop: bool,
        jobs: &Lanes<B>,
        operations: &Lanes<B>,
        job: JobId,
    ) -> bool
        requires job { IsProblemJob (T.posed task.now) job }
        requires shop { is_shop ≡ is_shop_env (T.posed task.now).problem.env }
        ensures { IsTrue result ↔ IsMet self (T.posed task.now) jobs.now operations.now job }
    {
        let extent = jobs.extent(job);
        match self {
            Condition::Amount => {
                if is_shop {
                    have_times(task, operations, job)
                } else {
                    extent.work == task.time(job)
                }
            }
            Condition::Unbroken => {
                if is_shop {
                    are_gapless(task, operations, job)
                } else {
                    extent.is_gapless() && jobs.is_on_one_machine(job)
                }
            }
            Condition::Released => task.release(job) <= extent.start,
            Condition::OnRoute => are_in_order(task, operations, job),
            Condition::WithoutWait => extent.is_gapless(),
        }
    }
}

// Whether a job has its time, is unbroken and is released, as far as the problem asks for it.
fn is_plain<T: Asks, B: Allocator>(
    task: &T,
    problem: &Problem,
    jobs: &Lanes<B>,
    operations: &Lanes<B>,
    job: JobId,
) -> bool
    requires job { IsProblemJob (T.posed task.now) job }
    requires problem { problem.now ≡ (T.posed task.now).problem }
    ensures { IsTrue result → IsPlainMet (T.posed task.now) jobs.now operations.now job }
{
    let is_shop = problem.env.is_shop();
    Condition::Amount.is_met(task, is_shop, jobs, operations, job)
        && (!problem.release || Condition::Released.is_met(task, is_shop, jobs, operations, job))
        && (problem.prmp || Condition::Unbroken.is_met(task, is_shop, jobs, operations, job))
}

/// Whether each job has its time, is unbroken and is released, as far as the problem asks for it,
/// in one walk over the jobs.
pub(crate) fn are_plain<T: Asks, B: Allocator>(
    task: &T,
    jobs: &Lanes<B>,
    operations: &Lanes<B>,
) -> bool
    ensures met { IsTrue result → EachJob (length (T.posed task.now).jobs)
        (IsPlainMet (T.posed task.now) jobs.now operations.now) }
    ensures limited { IsLimited (T.posed task.now) }
{
    let problem = task.problem();
    for k in 0..task.len() {
        if !is_plain(task, &problem, jobs, operations, JobId::at(k)) {
            return false;
        }
    }
    true
}

/// The smallest job that does not meet the condition, where the problem asks for it.
pub(crate) fn first_unmet<T: Asks, B: Allocator>(
    task: &T,
    jobs: &Lanes<B>,
    operations: &Lanes<B>,
    condition: Condition,
) -> Option<JobId>
    ensures first { FindsSmallestNot (is_asked condition (T.posed task.now).problem)
        (length (T.posed task.now).jobs)
        (IsMet condition (T.posed task.now) jobs.now operations.now) result }
    ensures limited { IsLimited (T.posed task.now) }
{
    let count = task.len();
    let problem = task.problem();
    if !condition.is_asked(&problem) {
        return None;
    }
    let is_shop = problem.env.is_shop();
    for k in 0..count {
        let job = JobId::at(k);
        if !condition.is_met(task, is_shop, jobs, operations, job) {
            return Some(job);
        }
    }
    None
}
