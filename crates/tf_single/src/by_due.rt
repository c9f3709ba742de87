//! Free jobs by their due dates.
ghost use Rattle.std.specs.Prelude.{IfSome, IsTrue};
ghost use Rattle.tf_model.specs.ClassTable.{is_due};
ghost use Rattle.tf_single.specs.ByDue.{AreNear};

use crate::free_jobs::{FreeJobs, LastJob};
use crate::greatest_first::GreatestFirst;
use std::alloc::Allocator;
use tf_check::keyed_job::{KeySpan, KeyedJob, job_of, rank_of};
use tf_model::cost::{Cost, Late};
use tf_model::ids::JobId;
use tf_model::memory::OutOfMemory;
use tf_model::task::Task;

/// Free jobs by their due dates, which are their keys: what is due last is the least late, whatever
/// the work.
impl<A: Allocator + Copy> FreeJobs for GreatestFirst<KeyedJob, A> {
    ghost use Rattle.tf_check.specs.KeyedJob.{key_cmp};
    ghost use Rattle.tf_single.specs.ByDue.{AreDue, jobs_due};
    ghost use Rattle.tf_single.specs.GreatestFirst.{AreOrdered, entries};

    ghost jobs_of = { λ free. jobs_due (entries free) };

    ghost IsKept = { λ free k _. AreDue k (entries free) × AreOrdered key_cmp free };

    fn is_empty(&self) -> bool {
        GreatestFirst::is_empty(self)
    }

    fn add<B: Allocator>(&mut self, task: &Task<B>, job: JobId) -> Result<(), OutOfMemory> {
        let key = task.due(job);
        self.push(KeyedJob { key, job })?;
        Ok(())
    }

    fn take_last<B: Allocator>(&mut self, _: &Task<B>, work: u64) -> LastJob {
        let KeyedJob { key: due, job } = self.pop();
        LastJob {
            job,
            cost: Late { due }.value_at(work as i64),
        }
    }
}

/// The least due date, where no job's is too far from it for a rank.
pub(crate) fn near_due<B: Allocator>(task: &Task<B>) -> Option<i64>
    requires { IsTrue (is_due task.now.class) }
    ensures { IfSome result (AreNear task.now) }
{
    let mut span = KeySpan::EMPTY;
    for k in 0..task.len() {
        span = span.with(task.due(JobId::at(k)));
    }
    span.near_least()
}

/// The same by ranks, where the due dates are near to one another.
#[derive(Drop)]
pub(crate) struct ByNearDue<A: Allocator> {
    least: i64,
    ranks: GreatestFirst<u64, A>,
}

impl<A: Allocator + Copy> ByNearDue<A> {
    ghost use Rattle.std.specs.Prelude.{◌≡◌, [], IsTrue, IfOk};
    ghost use Rattle.tf_model.specs.ClassTable.{is_due};
    ghost use Rattle.tf_single.specs.ByDue.{AreNear, AreRanked, jobs_due, jobs_ranked};

    /// No job is free.
    pub(crate) fn new<B: Allocator>(
        alloc: A,
        task: &Task<B>,
        least: i64,
    ) -> Result<Self, OutOfMemory>
        requires class { IsTrue (is_due task.now.class) }
        requires near { AreNear task.now least }
        ensures none { IfOk result (λ free. jobs_due (jobs_ranked free.least free.ranks) ≡ []) }
        ensures kept { IfOk result (λ free. AreRanked task.now free.least free.ranks) }
    {
        Ok(ByNearDue {
            least,
            ranks: GreatestFirst::new(alloc, task.len())?,
        })
    }
}

impl<A: Allocator + Copy> FreeJobs for ByNearDue<A> {
    ghost use Rattle.tf_single.specs.ByDue.{AreRanked, jobs_due, jobs_ranked};

    ghost jobs_of = { λ free. jobs_due (jobs_ranked free.least free.ranks) };

    ghost IsKept = { λ free k _. AreRanked k free.least free.ranks };

    fn is_empty(&self) -> bool {
        self.ranks.is_empty()
    }

    fn add<B: Allocator>(&mut self, task: &Task<B>, job: JobId) -> Result<(), OutOfMemory> {
        let key = task.due(job);
        self.ranks.push(rank_of(KeyedJob { key, job }, self.least))?;
        Ok(())
    }

    fn take_last<B: Allocator>(&mut self, _: &Task<B>, work: u64) -> LastJob {
        let KeyedJob { key: due, job } = job_of(self.ranks.pop(), self.least);
        LastJob {
            job,
            cost: Late { due }.value_at(work as i64),
        }
    }
}
