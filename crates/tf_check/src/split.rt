//! The bound by a split of a flow shop's jobs.
ghost use Rattle.std.specs.Prelude.{◌≡◌, ◌≤◌, pos, not, int_le};
ghost use Rattle.std.specs.List.{find, list_any, sum_by};
ghost use Rattle.tf_model.specs.Limit.{limit};
ghost use Rattle.tf_model.specs.SchedulingTask.{IsJob, all_jobs};
ghost use Rattle.tf_check.specs.Sides.{counted};
ghost use Rattle.tf_check.specs.Bound.{keeps_side, reaches_delta};
ghost use Rattle.tf_check.specs.Free.{AreMarks};

use crate::evidence::Evidence;
use crate::fault::BoundFault;
use crate::jobs::judge_list;
use crate::kinds::takes_split;
use std::alloc::{Allocator, Global};
use tf_model::ids::JobId;
use tf_model::job_list::JobList;
use tf_model::task::Task;

/// The jobs of the side count on machine 1, the others on machine 2, and `delta` is the time in
/// which one machine has to wait for the other (Johnson 1954). With `first` a job that is not of
/// the side reaches `delta` on machine 1, otherwise a job of the side reaches it on machine 2.
#[derive(Drop)]
pub struct Split<A: Allocator = Global> {
    pub side: JobList<A>,
    /// In time steps.
    pub delta: i64,
    /// Whether it is reached on machine 1.
    pub first: bool,
}

impl<A: Allocator> Evidence for Split<A> {
    ghost use Rattle.std.specs.Prelude.{◌≡◌};
    ghost use Rattle.tf_check.specs.Bound.{split_bound};
    ghost use Rattle.tf_check.specs.Laws.{split_law};

    ghost bound_of = { λ c k. split_bound k c.side c.delta c.first };

    ghost law = { λ c k rows b sound is fits.
        split_law k c.side c.delta c.first rows b sound is fits.broken };

    /// It takes memory for a mark for each job of the task.
    fn bound<B: Allocator + Copy, C: Allocator>(
        &self,
        alloc: B,
        task: &Task<C>,
    ) -> Result<i128, BoundFault> {
        if !takes_split(task.class()) {
            return Err(BoundFault::OtherKind);
        }
        let side = self.side.as_slice();
        let marks = judge_list(alloc, task, side)?;
        if let Some(job) = self.first_off(task, &marks) {
            return Err(BoundFault::Condition(job));
        }
        if self.delta < 0 || !self.is_reached(task, &marks) {
            return Err(BoundFault::BadDelta);
        }
        Ok(i128::from(self.work(task, &marks)) + i128::from(self.delta))
    }
}

// Each takes the marks of the side, job by job of the task.
impl<A: Allocator> Split<A> {
    // Whether a job keeps the condition of its side.
    fn keeps_side<B: Allocator>(&self, task: &Task<B>, marks: &[bool], job: JobId) -> bool
        requires job { IsJob task.now job }
        requires marks { AreMarks task.now marks.now self.now.side }
        ensures { result ≡ keeps_side task.now self.now.side self.now.delta self.now.first job }
    {
        let row = task.job(job);
        let is_early = row.first <= row.second;
        let is_late = row.second <= row.first;
        let of_side = marks[job.place()];
        if self.first {
            if of_side {
                is_early
            } else {
                reaches(row.first, self.delta) || is_late
            }
        } else if of_side {
            reaches(row.second, self.delta) || is_early
        } else {
            is_late
        }
    }

    // Whether a job reaches delta, where its side has to.
    fn reaches_delta<B: Allocator>(&self, task: &Task<B>, marks: &[bool], job: JobId) -> bool
        requires job { IsJob task.now job }
        requires marks { AreMarks task.now marks.now self.now.side }
        ensures { result ≡ reaches_delta task.now self.now.side self.now.delta self.now.first job }
    {
        let row = task.job(job);
        let of_side = marks[job.place()];
        if self.first {
            !of_side && reaches(row.first, self.delta)
        } else {
            of_side && reaches(row.second, self.delta)
        }
    }

    // The smallest job that does not keep the condition of its side.
    fn first_off<B: Allocator>(&self, task: &Task<B>, marks: &[bool]) -> Option<JobId>
        requires { AreMarks task.now marks.now self.now.side }
        ensures { result ≡ find
            (λ j. not (keeps_side task.now self.now.side self.now.delta self.now.first j))
            (all_jobs task.now) }
    {
        for k in 0..task.len() {
            let job = JobId::at(k);
            if !self.keeps_side(task, marks, job) {
                return Some(job);
            }
        }
        None
    }

    // Whether some job reaches delta.
    fn is_reached<B: Allocator>(&self, task: &Task<B>, marks: &[bool]) -> bool
        requires { AreMarks task.now marks.now self.now.side }
        ensures { result ≡ list_any
            (reaches_delta task.now self.now.side self.now.delta self.now.first)
            (all_jobs task.now) }
    {
        for k in 0..task.len() {
            if self.reaches_delta(task, marks, JobId::at(k)) {
                return true;
            }
        }
        false
    }

    // The time of a job on the machine on which it counts.
    fn counted<B: Allocator>(&self, task: &Task<B>, marks: &[bool], job: JobId) -> u64
        requires job { IsJob task.now job }
        requires marks { AreMarks task.now marks.now self.now.side }
        ensures { result ≡ counted task.now self.now.side job }
    {
        let row = task.job(job);
        if marks[job.place()] {
            row.first
        } else {
            row.second
        }
    }

    // The times of the side on machine 1, and of the others on machine 2.
    fn work<B: Allocator>(&self, task: &Task<B>, marks: &[bool]) -> u64
        requires { AreMarks task.now marks.now self.now.side }
        ensures value { result ≡ sum_by (counted task.now self.now.side) (all_jobs task.now) }
        ensures small { result ≤ limit }
    {
        let mut work: u64 = 0;
        for k in 0..task.len() {
            work += self.counted(task, marks, JobId::at(k));
        }
        work
    }
}

fn reaches(time: u64, delta: i64) -> bool
    ensures { result ≡ int_le delta (pos time) }
{
    i128::from(delta) <= i128::from(time)
}
