//! Arcs, counted at both of their jobs and found by the job that they lead to.
ghost use Rattle.std.specs.Prelude.{◌≡◌, ℕ, length, IfOk};
ghost use Rattle.tf_model.specs.SchedulingTask.{IsJob};
ghost use Rattle.tf_single.specs.ArcCounts.{AreArcsFrom, AreArcsTo};
ghost use Rattle.tf_single.specs.ArcsInto.{arcs_before};
ghost use Rattle.tf_single.specs.Progress.{of_job};

use std::alloc::Allocator;
use tf_model::ids::JobId;
use tf_model::memory::OutOfMemory;
use tf_model::task::Task;

/// For each job of a task, how many arcs lead from it, and how many lead to it.
pub(crate) fn arc_counts<A: Allocator + Copy, B: Allocator>(
    alloc: A,
    task: &Task<B>,
) -> Result<(Vec<u32, A>, Vec<u32, A>), OutOfMemory>
    ensures successors { IfOk result (λ counts. AreArcsFrom task.now counts.0.items) }
    ensures predecessors { IfOk result (λ counts. AreArcsTo task.now counts.1.items) }
{
    let mut successors = vec![in alloc; 0_u32; task.len()]?;
    let mut predecessors = vec![in alloc; 0_u32; task.len()]?;
    for (before, after) in task.arcs() {
        successors[before.place()] += 1;
        predecessors[after.place()] += 1;
    }
    Ok((successors, predecessors))
}

/// The arcs of a task, in one list by the job that they lead to.
#[derive(Drop)]
pub(crate) struct ArcsInto<A: Allocator> {
    /// For each job the number of arcs that lead to it or to a job before it: where its list ends.
    ends: Vec<u32, A>,
    /// For each arc the job that it comes from, by the job that it leads to.
    froms: Vec<JobId, A>,
}

impl<A: Allocator + Copy> ArcsInto<A> {
    ghost use Rattle.std.specs.Prelude.{◌≡◌, ◌≤◌, length, IfOk};
    ghost use Rattle.tf_single.specs.ArcCounts.{AreArcsTo};
    ghost use Rattle.tf_single.specs.ArcsInto.{AreFound, begin_of, list_of};
    ghost use Rattle.tf_single.specs.Progress.{of_job};

    /// The arcs of the task, of which so many lead to each job.
    pub(crate) fn of<B: Allocator>(
        alloc: A,
        task: &Task<B>,
        predecessors: Vec<u32, A>,
    ) -> Result<Self, OutOfMemory>
        requires { AreArcsTo task.now predecessors.items }
        ensures { IfOk result (λ into. AreFound task.now into.ends.items into.froms.items) }
    {
        let mut ends = begins(task, predecessors);
        let mut froms = vec![in alloc; JobId::at(0); task.arcs().len()]?;
        for (from, to) in task.arcs() {
            let job = to.place();
            let place = ends[job];
            froms[place as usize] = *from;
            ends[job] = place + 1;
        }
        Ok(ArcsInto { ends, froms })
    }

    /// The jobs from which arcs lead to the job, one for each arc.
    pub(crate) fn predecessors(&self, job: JobId) -> &[JobId]
        requires job { job ≤ length self.now.ends.items }
        requires in_order { begin_of self.now.ends.items job ≤ of_job self.now.ends.items job }
        requires within { of_job self.now.ends.items job ≤ length self.now.froms.items }
        ensures { result.now ≡ list_of self.now.ends.items self.now.froms.items job }
    {
        let place = job.place();
        let begin = if place == 0 { 0 } else { self.ends[place - 1] };
        &self.froms[begin as usize..self.ends[place] as usize]
    }
}

// From how many arcs lead to each job, how many lead to jobs before it.
fn begins<A: Allocator, B: Allocator>(task: &Task<B>, predecessors: Vec<u32, A>) -> Vec<u32, A>
    requires { AreArcsTo task.now predecessors.items }
    ensures len { length result.items ≡ length task.now.jobs }
    ensures each { (j : ℕ) → IsJob task.now j
        → of_job result.items j ≡ arcs_before task.now.arcs j }
{
    let mut begins = predecessors;
    let mut begin = 0;
    for place in 0..task.len() {
        let count = begins[place];
        begins[place] = begin;
        begin += count;
    }
    begins
}
