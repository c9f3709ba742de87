//! The arithmetic of a certificate, with the numbers of the task put in.
ghost use Rattle.std.specs.Prelude.{◌≡◌, ◌≤◌, ◌<◌, ◌^◌, ◌++◌, map, length};
ghost use Rattle.std.specs.Prelude.{None, Some, Ok, IfOk, IsOk, OnOk, IsTrue};
ghost use Rattle.std.specs.List.{All, sum_by};
ghost use Rattle.tf_model.specs.ClassTable.{is_due, is_released, is_sum};
ghost use Rattle.tf_model.specs.Limit.{limit};
ghost use Rattle.tf_model.specs.SchedulingTask.{IsJob, all_jobs, job_data, time_of, time_on};
ghost use Rattle.tf_model.specs.Sound.{IsSound};
ghost use Rattle.tf_check.specs.Bound.{bound_by, greatest, last_of_bound, least_number};
ghost use Rattle.tf_check.specs.Bound.{one_job_bound, pairs_bound, ranks_bound};
ghost use Rattle.tf_check.specs.Bound.{split_bound, window_bound};
ghost use Rattle.tf_check.specs.Certificate.{claim_of};
ghost use Rattle.tf_check.specs.Claim.{ByLastOf, ByOneJob, ByPairs, ByRanks, BySplit, ByWindow};
ghost use Rattle.tf_evaluate.specs.Arithmetic.{arithmetic, first_terms, last_terms};
ghost use Rattle.tf_evaluate.specs.Arithmetic.{last_result, own_times, step_of};
ghost use Rattle.tf_evaluate.specs.declared.step.Terms.TheVariants.{GreatestFactor, SetWork};

use crate::step::{Step, Terms};
use std::alloc::Allocator;
use tf_check::certificate::Certificate;
use tf_check::set_numbers::{greatest_due, least_release, work_of};
use tf_check::split::Split;
use tf_model::ids::JobId;
use tf_model::memory::OutOfMemory;
use tf_model::task::Task;

/// The steps from the numbers of the task to the bound that the certificate gives.
pub(crate) fn arithmetic<A: Allocator, B: Allocator, C: Allocator>(
    alloc: A,
    task: &Task<B>,
    certificate: &Certificate<C>,
    bound: i128,
) -> Result<Vec<Step, A>, OutOfMemory>
    requires sound { IsSound task.now }
    requires given { bound_by (claim_of certificate.now) task.now ≡ Ok bound }
    ensures steps { IfOk result
        (λ steps. steps.items ≡ arithmetic task.now (claim_of certificate.now)) }
    ensures ends { IfOk result (λ steps. last_result None steps.items ≡ Some bound) }
{
    let mut steps = Vec::new(alloc);
    push_first_step(&mut steps, task, certificate)?;
    steps.push(Step {
        terms: last_terms(task, certificate, bound),
        result: bound,
    })?;
    Ok(steps)
}

// What has to be known before the last step.
fn push_first_step<A: Allocator, B: Allocator, C: Allocator>(
    steps: &mut Vec<Step, A>,
    task: &Task<B>,
    certificate: &Certificate<C>,
) -> Result<(), OutOfMemory>
    requires sound { IsSound task.now }
    requires given { IsOk (bound_by (claim_of certificate.now) task.now) }
    ensures { OnOk result (steps.new.items
        ≡ steps.old.items ++ map step_of (first_terms task.now (claim_of certificate.now))) }
{
    match certificate {
        Certificate::LastOf(last) => steps.push(set_work(task, last.jobs.as_slice()))?,
        Certificate::Ranks(ranks) => steps.push(greatest_factor(task, ranks.jobs.as_slice()))?,
        _ => {}
    }
    Ok(())
}

// The last step, which gives the bound.
fn last_terms<B: Allocator, C: Allocator>(
    task: &Task<B>,
    certificate: &Certificate<C>,
    bound: i128,
) -> Terms
    requires sound { IsSound task.now }
    requires given { bound_by (claim_of certificate.now) task.now ≡ Ok bound }
    ensures { result ≡ last_terms task.now (claim_of certificate.now) }
{
    match certificate {
        Certificate::Pairs(_) => smith(task, bound),
        Certificate::LastOf(last) => least_cost(task, last.jobs.as_slice(), bound),
        Certificate::Window(window) => window_terms(task, window.jobs.as_slice()),
        Certificate::Split(split) => split_terms(task, split, bound),
        Certificate::Load(_) => Terms::Load {
            work: task.total_time(),
            machines: task.machines(),
        },
        Certificate::Machine(load) => Terms::MachineWork {
            machine: load.machine,
            work: task.work_on(load.machine),
        },
        Certificate::OneJob(one) => job_terms(task, one.job),
        Certificate::Ranks(ranks) => ranked(task, ranks.jobs.as_slice(), bound),
    }
}

fn smith<B: Allocator>(task: &Task<B>, bound: i128) -> Terms
    requires { pairs_bound task.now ≡ Ok bound }
    ensures { result ≡ last_terms task.now ByPairs }
{
    let own = own_times(task);
    Terms::Smith {
        own,
        waiting: bound.unsigned_abs() - own,
    }
}

fn set_work<B: Allocator>(task: &Task<B>, jobs: &[JobId]) -> Step
    requires sound { IsSound task.now }
    requires given { IsOk (last_of_bound task.now jobs.now) }
    ensures { result ≡ step_of (SetWork (sum_by (time_of task.now) jobs.now)) }
{
    let work = work_of(task, jobs);
    Step {
        terms: Terms::SetWork { work },
        result: i128::from(work),
    }
}

fn least_cost<B: Allocator>(task: &Task<B>, jobs: &[JobId], bound: i128) -> Terms
    requires sound { IsSound task.now }
    requires given { last_of_bound task.now jobs.now ≡ Ok bound }
    ensures { result ≡ last_terms task.now (ByLastOf jobs.now) }
{
    Terms::LeastCost {
        completion: work_of(task, jobs),
        cost: bound,
    }
}

fn window_terms<B: Allocator>(task: &Task<B>, jobs: &[JobId]) -> Terms
    requires sound { IsSound task.now }
    requires given { IsOk (window_bound task.now jobs.now) }
    ensures { result ≡ last_terms task.now (ByWindow jobs.now) }
{
    Terms::Window {
        release: least_release(task, jobs),
        work: work_of(task, jobs),
        due: greatest_due(task, jobs),
    }
}

fn split_terms<B: Allocator, C: Allocator>(task: &Task<B>, split: &Split<C>, bound: i128) -> Terms
    requires sound { IsSound task.now }
    requires given { split_bound task.now split.now.side split.now.delta split.now.first
        ≡ Ok bound }
    ensures { result
        ≡ last_terms task.now (BySplit split.now.side split.now.delta split.now.first) }
{
    let side = work_on_first(task, split.side.as_slice());
    let delta = split.delta.unsigned_abs();
    Terms::Split {
        side,
        others: bound.unsigned_abs() - u128::from(side) - u128::from(delta),
        delta,
    }
}

fn job_terms<B: Allocator>(task: &Task<B>, job: JobId) -> Terms
    requires { IsOk (one_job_bound task.now job) }
    ensures { result ≡ last_terms task.now (ByOneJob job) }
{
    let row = task.job(job);
    if task.class().is_shop() {
        return Terms::ShopTimes {
            job,
            first: row.first,
            second: row.second,
        };
    }
    Terms::JobTime {
        job,
        time: task.time(job),
    }
}

fn greatest_factor<B: Allocator>(task: &Task<B>, jobs: &[JobId]) -> Step
    ensures { result ≡ step_of (GreatestFactor (length jobs.now) task.now.machines) }
{
    let machines = task.machines();
    let jobs = jobs.len() as u64;
    Step {
        terms: Terms::GreatestFactor { jobs, machines },
        result: i128::from(jobs.div_ceil(u64::from(machines))),
    }
}

fn ranked<B: Allocator>(task: &Task<B>, jobs: &[JobId], bound: i128) -> Terms
    requires sound { IsSound task.now }
    requires given { ranks_bound task.now jobs.now ≡ Ok bound }
    ensures { result ≡ last_terms task.now (ByRanks jobs.now) }
{
    let work = work_of(task, jobs);
    Terms::Ranks {
        work,
        waiting: bound.unsigned_abs() - u128::from(work),
    }
}

// The processing times of all jobs, by weight.
fn own_times<B: Allocator>(task: &Task<B>) -> u128
    requires class { IsTrue (is_sum task.now.class) }
    requires small { own_times task.now < 2 ^ 128 }
    ensures { result ≡ own_times task.now }
{
    let mut own: u128 = 0;
    for k in 0..task.len() {
        let job = JobId::at(k);
        own += u128::from(task.weight(job)) * u128::from(task.time(job));
    }
    own
}

// The processing times of the jobs on machine 1.
fn work_on_first<B: Allocator>(task: &Task<B>, jobs: &[JobId]) -> u64
    requires known { All (IsJob task.now) jobs.now }
    requires work { sum_by (λ j. time_on task.now j 0) jobs.now ≤ limit }
    ensures { result ≡ sum_by (λ j. time_on task.now j 0) jobs.now }
{
    let mut work: u64 = 0;
    for job in jobs {
        work += task.job(*job).first;
    }
    work
}
