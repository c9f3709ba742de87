//! Jobs in the order of numbers, each of which is a place and then the job there.
ghost use Rattle.std.specs.Prelude.{◌≡◌, ◌<◌, ◌+◌, ◌*◌, ◌++◌, map, IfOk};
ghost use Rattle.std.specs.List.{All};
ghost use Rattle.tf_check.specs.RatioRank.{IsOfJob, job_in};

use std::alloc::Allocator;
use tf_model::ids::JobId;
use tf_model::memory::OutOfMemory;

// How many numbers a job may have.
const NUMBERS: u128 = 1 << 32;

/// A place in an order and the number of a job there, as one number: jobs at the same place come
/// by number.
#[inline(always)]
pub fn rank_at(place: u64, job: JobId) -> u128
    requires { job < 4294967296 }
    ensures { result ≡ place * 4294967296 + job }
{
    u128::from(place) * NUMBERS + u128::from(job.get())
}

/// Adds the jobs of such numbers. Only want of memory is an error.
pub fn push_jobs<A: Allocator>(jobs: &mut Vec<JobId, A>, ranks: &[u128]) -> Result<(), OutOfMemory>
    requires { All IsOfJob ranks.now }
    ensures { IfOk result (λ _. jobs.new.items ≡ jobs.old.items ++ map job_in ranks.now) }
{
    for rank in ranks {
        jobs.push(JobId::at((*rank % NUMBERS) as usize - 1))?;
    }
    Ok(())
}
