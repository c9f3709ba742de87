//! The longest job.
ghost use Rattle.tf_multi.specs.Longest.{IsFirstLongest};

use std::alloc::Allocator;
use tf_model::ids::JobId;
use tf_model::task::Task;

pub(crate) fn first_longest<B: Allocator>(task: &Task<B>) -> JobId
    ensures { IsFirstLongest task.now result }
{
    let mut longest = JobId::at(0);
    for k in 1..task.len() {
        let job = JobId::at(k);
        if task.time(longest) < task.time(job) {
            longest = job;
        }
    }
    longest
}
