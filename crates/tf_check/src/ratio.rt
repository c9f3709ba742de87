//! The order by the ratio of weight to time.
ghost use Rattle.std.specs.Prelude.{◌≡◌, ◌*◌, ◌<◌, ◌≤◌, ◌++◌, map, IfOk, IfSome, IsTrue};
ghost use Rattle.std.specs.List.{All};
ghost use Rattle.std.specs.Ordering.{is_lt};
ghost use Rattle.tf_model.specs.ClassTable.{is_sum};
ghost use Rattle.tf_model.specs.Limit.{limit};
ghost use Rattle.tf_model.specs.SchedulingTask.{IsJob, all_jobs};
ghost use Rattle.tf_model.specs.Sound.{IsSound};
ghost use Rattle.tf_check.specs.Ratio.{AreOfTask, AreJobsByRatio, completions_in, jobs_of};
ghost use Rattle.tf_check.specs.GoesBefore.{goes_before};
ghost use Rattle.tf_check.specs.RatioRank.{IsScale, IsRankIn, IsOfJob, job_in, scaled};

use crate::weighted_job::WeightedJob;
use std::alloc::Allocator;
use std::cmp::Ordering;
use tf_model::ids::JobId;
use tf_model::memory::OutOfMemory;
use tf_model::task::Task;

// How many numbers a job may have.
const NUMBERS: u64 = 1 << 32;

// What a job without weight has for its scaled time: more than any other has.
const LAST: u64 = NUMBERS - 1;

/// The jobs of a task whose objective is a sum, those of greater weight for their time first and
/// the smaller number first among equals (Smith 1956). Only want of memory is an error.
pub fn jobs_by_ratio<A: Allocator + Copy, B: Allocator>(
    alloc: A,
    task: &Task<B>,
) -> Result<Vec<JobId, A>, OutOfMemory>
    requires { IsTrue (is_sum task.now.class) }
    ensures by_ratio { IfOk result (λ jobs. AreJobsByRatio task.now jobs.items) }
    ensures sound { IsSound task.now }
{
    match scale_of(task) {
        Some(scale) => jobs_by_rank(alloc, task, scale),
        None => jobs_by_products(alloc, task),
    }
}

// Each job by its time over its weight and its number, as one number of 64 bits.
fn jobs_by_rank<A: Allocator + Copy, B: Allocator>(
    alloc: A,
    task: &Task<B>,
    scale: u64,
) -> Result<Vec<JobId, A>, OutOfMemory>
    requires sum { IsTrue (is_sum task.now.class) }
    requires scale { IsScale task.now scale }
    ensures by_ratio { IfOk result (λ jobs. AreJobsByRatio task.now jobs.items) }
    ensures sound { IsSound task.now }
{
    let mut jobs = Vec::with_capacity(alloc, task.len())?;
    let mut ranks = ranks_of(alloc, task, scale)?;
    ranks.sort_unstable();
    push_jobs(&mut jobs, &ranks)?;
    Ok(jobs)
}

// What times are scaled by, so that times over weights that differ do so in their whole parts: the
// square of the greatest weight, where times and weights are small enough for ranks.
fn scale_of<B: Allocator>(task: &Task<B>) -> Option<u64>
    requires { IsTrue (is_sum task.now.class) }
    ensures { IfSome result (IsScale task.now) }
{
    let mut weight: u64 = 0;
    let mut time: u64 = 0;
    for k in 0..task.len() {
        let row = task.job(JobId::at(k));
        weight = weight.max(row.weight);
        time = time.max(row.time());
    }
    let scale = weight.checked_mul(weight)?;
    if time.checked_mul(scale)? < LAST {
        Some(scale)
    } else {
        None
    }
}

// The ranks of all jobs.
fn ranks_of<A: Allocator, B: Allocator>(
    alloc: A,
    task: &Task<B>,
    scale: u64,
) -> Result<Vec<u64, A>, OutOfMemory>
    requires sum { IsTrue (is_sum task.now.class) }
    requires scale { IsScale task.now scale }
    ensures jobs { IfOk result (λ ranks. map job_in ranks.items ≡ all_jobs task.now) }
    ensures ranks { IfOk result (λ ranks. All (IsRankIn task.now scale) ranks.items) }
    ensures sound { IsSound task.now }
{
    let mut ranks = Vec::with_capacity(alloc, task.len())?;
    for k in 0..task.len() {
        ranks.push(rank_in(task, scale, JobId::at(k)))?;
    }
    Ok(ranks)
}

// The rank of a job: the scaled time over the weight, and then the number.
fn rank_in<B: Allocator>(task: &Task<B>, scale: u64, job: JobId) -> u64
    requires sum { IsTrue (is_sum task.now.class) }
    requires scale { IsScale task.now scale }
    requires job { IsJob task.now job }
    requires few { job < 4294967296 }
    ensures job { job_in result ≡ job }
    ensures rank { IsRankIn task.now scale result }
{
    let row = task.job(job);
    scaled(row.weight, row.time(), scale) * NUMBERS + u64::from(job.get())
}

fn scaled(weight: u64, time: u64, scale: u64) -> u64
    requires { time * scale < 4294967295 }
    ensures value { result ≡ scaled weight time scale }
    ensures small { result ≤ 4294967295 }
{
    if weight == 0 {
        LAST
    } else {
        time * scale / weight
    }
}

// Adds the jobs of ranks.
fn push_jobs<A: Allocator>(jobs: &mut Vec<JobId, A>, ranks: &[u64]) -> Result<(), OutOfMemory>
    requires { All IsOfJob ranks.now }
    ensures { IfOk result (λ _. jobs.new.items ≡ jobs.old.items ++ map job_in ranks.now) }
{
    for rank in ranks {
        jobs.push(JobId::at((*rank % NUMBERS) as usize - 1))?;
    }
    Ok(())
}

// The jobs where weights or times are too great for ranks.
fn jobs_by_products<A: Allocator + Copy, B: Allocator>(
    alloc: A,
    task: &Task<B>,
) -> Result<Vec<JobId, A>, OutOfMemory>
    requires { IsTrue (is_sum task.now.class) }
    ensures by_ratio { IfOk result (λ jobs. AreJobsByRatio task.now jobs.items) }
    ensures sound { IsSound task.now }
{
    let mut jobs = weighted_jobs(alloc, task)?;
    jobs.sort_unstable_by(|first, second| by_ratio(first, second));
    numbers(alloc, &jobs)
}

// All jobs, by number.
fn weighted_jobs<A: Allocator, B: Allocator>(
    alloc: A,
    task: &Task<B>,
) -> Result<Vec<WeightedJob, A>, OutOfMemory>
    requires { IsTrue (is_sum task.now.class) }
    ensures all { IfOk result (λ jobs. AreOfTask task.now jobs.items) }
    ensures sound { IsSound task.now }
{
    let mut jobs = Vec::with_capacity(alloc, task.len())?;
    for k in 0..task.len() {
        let job = JobId::at(k);
        jobs.push(WeightedJob {
            job,
            weight: task.weight(job),
            time: task.time(job),
        })?;
    }
    Ok(jobs)
}

// Ratios compare as products of the one job's weight and the other's time.
fn by_ratio(first: &WeightedJob, second: &WeightedJob) -> Ordering
    ensures { is_lt result ≡ goes_before first.now second.now }
{
    let ahead = product(first.weight, second.time);
    let behind = product(second.weight, first.time);
    behind.cmp(&ahead).then(first.job.cmp(&second.job))
}

fn product(weight: u64, time: u64) -> u128
    ensures { result ≡ weight * time }
{
    u128::from(weight) * u128::from(time)
}

// The numbers of the jobs.
fn numbers<A: Allocator>(alloc: A, jobs: &[WeightedJob]) -> Result<Vec<JobId, A>, OutOfMemory>
    ensures { IfOk result (λ numbers. numbers.items ≡ jobs_of jobs.now) }
{
    let numbers: Vec<JobId, A> = jobs.iter().map(|job| job.job).collect(alloc)?;
    Ok(numbers)
}

/// The weighted sum of the completions of all jobs, if they run in this order one after another
/// from time 0 on.
pub fn weighted_completions<B: Allocator>(task: &Task<B>, jobs: &[JobId]) -> u64
    requires sound { IsSound task.now }
    requires sum { IsTrue (is_sum task.now.class) }
    requires by_ratio { AreJobsByRatio task.now jobs.now }
    ensures value { result ≡ completions_in task.now 0 jobs.now }
    ensures small { result ≤ limit }
{
    let mut value: u64 = 0;
    let mut completion: u64 = 0;
    for job in jobs {
        let row = task.job(*job);
        completion += row.time();
        value += row.weight * completion;
    }
    value
}
