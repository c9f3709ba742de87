//! The bound by the last job of a set.
ghost use Rattle.std.specs.Prelude.{◌≡◌, ◌≤◌, ◌<◌, length, MatchResult, IsFalse};
ghost use Rattle.std.specs.List.{All};
ghost use Rattle.tf_model.specs.ClassTable.{is_sum};
ghost use Rattle.tf_model.specs.Cost.{price};
ghost use Rattle.tf_model.specs.Limit.{limit};
ghost use Rattle.tf_model.specs.SchedulingTask.{IsJob};
ghost use Rattle.tf_check.specs.Bound.{free_jobs, smallest};
ghost use Rattle.tf_check.specs.Free.{AreMarks, AreFollowed, cheapest, least_with};
ghost use Rattle.tf_check.specs.declared.fault.BoundFault.TheVariants.{OutOfMemory};

use crate::evidence::Evidence;
use crate::fault::BoundFault;
use crate::jobs::judge_list;
use crate::kinds::takes_last_of;
use crate::set_numbers::work_of;
use std::alloc::{Allocator, Global};
use tf_model::ids::JobId;
use tf_model::job_list::JobList;
use tf_model::task::Task;
use tf_schedule::cost::price;

/// The job of the set that completes last has no successor in it, and waits for all its work
/// (Lawler 1973).
#[derive(Drop)]
pub struct LastOf<A: Allocator = Global> {
    pub jobs: JobList<A>,
}

impl<A: Allocator> Evidence for LastOf<A> {
    ghost use Rattle.std.specs.Prelude.{◌≡◌};
    ghost use Rattle.tf_check.specs.Bound.{last_of_bound};
    ghost use Rattle.tf_check.specs.Laws.{last_of_law};

    ghost bound_of = { λ c k. last_of_bound k c.jobs };

    ghost law = { λ c k rows b sound is fits. last_of_law k c.jobs rows b sound is fits.broken };

    /// It takes memory for two marks for each job of the task.
    fn bound<B: Allocator + Copy, C: Allocator>(
        &self,
        alloc: B,
        task: &Task<C>,
    ) -> Result<i128, BoundFault> {
        if !takes_last_of(task.class()) {
            return Err(BoundFault::OtherKind);
        }
        let jobs = self.jobs.as_slice();
        let set = judge_list(alloc, task, jobs)?;
        if jobs.is_empty() {
            return Err(BoundFault::EmptySet);
        }
        let followed = followed_by(alloc, task, jobs, &set)?;
        match cheapest_free(task, jobs, &followed, work_of(task, jobs)) {
            Some(value) => Ok(value),
            None => Err(BoundFault::Condition(smallest(jobs))),
        }
    }
}

// Job by job of the task, whether it has a successor in the set.
fn followed_by<A: Allocator, B: Allocator>(
    alloc: A,
    task: &Task<B>,
    jobs: &[JobId],
    set: &[bool],
) -> Result<Vec<bool, A>, BoundFault>
    requires { AreMarks task.now set.now jobs.now }
    ensures { MatchResult result
        (λ followed. AreFollowed task.now followed.items jobs.now)
        (λ fault. fault ≡ OutOfMemory) }
{
    let Ok(mut followed) = vec![in alloc; false; task.len()] else {
        return Err(BoundFault::OutOfMemory);
    };
    for (before, after) in task.arcs() {
        if set[after.place()] {
            followed[before.place()] = true;
        }
    }
    Ok(followed)
}

// The least price of a job of the set that has no successor in it, where it completes at `end`.
fn cheapest_free<B: Allocator>(
    task: &Task<B>,
    jobs: &[JobId],
    followed: &[bool],
    end: u64,
) -> Option<i128>
    requires class { IsFalse (is_sum task.now.class) }
    requires known { All (IsJob task.now) jobs.now }
    requires followed { AreFollowed task.now followed.now jobs.now }
    requires end { end ≤ limit }
    ensures { result ≡ cheapest (λ j. price task.now j end) (free_jobs task.now jobs.now) }
{
    let mut least: Option<i128> = None;
    for job in jobs {
        if !followed[job.place()] {
            least = Some(lesser(least, price(task, *job, end as i64)));
        }
    }
    least
}

// The lesser of a value, where there is one, and another.
fn lesser(least: Option<i128>, value: i128) -> i128
    ensures { result ≡ least_with least value }
{
    match least {
        Some(least) => least.min(value),
        None => value,
    }
}

// The smallest job of a list that is not empty.
fn smallest(jobs: &[JobId]) -> JobId
    requires { 0 < length jobs.now }
    ensures { result ≡ smallest jobs.now }
{
    let mut smallest = jobs[0];
    for job in jobs {
        if *job < smallest {
            smallest = *job;
        }
    }
    smallest
}
