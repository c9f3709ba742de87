//! The shortest remaining processing time first.
use std::alloc::Allocator;
use std::cmp::Reverse;
use std::collections::BinaryHeap;
use tf_decode::table::TaskTable;
use tf_model::memory::OutOfMemory;

// The released jobs: the processing time that is left, and the number.
type Waiting<A> = BinaryHeap<Reverse<(u64, u32)>, A>;

/// The jobs in the order in which one machine completes them that at each time runs the released
/// job of the shortest remaining time. With preemption no sum of completion times is smaller
/// (Schrage 1968). With this list as priorities no job is completed later: with these completion
/// times as due dates it is the earliest due date first, which meets them (Horn 1974).
pub(crate) fn shortest_remaining<A: Allocator + Copy, B: Allocator>(
    alloc: A,
    table: &TaskTable<B>,
) -> Result<Vec<u32, A>, OutOfMemory> {
    let mut waiting = BinaryHeap::with_capacity(alloc, table.jobs.len())?;
    let mut list = Vec::with_capacity(alloc, table.jobs.len())?;
    let mut now = 0;
    for (release, job) in &by_release(alloc, table)? {
        now = run_until(&mut waiting, &mut list, now, *release)?;
        waiting.push(Reverse((table.job(*job as usize).work, *job)))?;
    }
    run_until(&mut waiting, &mut list, now, u64::MAX)?;
    Ok(list)
}

// The release dates of all jobs and their numbers, in this order.
fn by_release<A: Allocator, B: Allocator>(
    alloc: A,
    table: &TaskTable<B>,
) -> Result<Vec<(u64, u32), A>, OutOfMemory> {
    let mut released = Vec::with_capacity(alloc, table.jobs.len())?;
    for (job, numbers) in table.jobs.iter().enumerate() {
        released.push((numbers.release, u32::try_from(job).unwrap_or(u32::MAX)))?;
    }
    released.sort_unstable();
    Ok(released)
}

// Runs the waiting jobs from `now` until a time, and lists those that are completed. Returns the
// time.
fn run_until<A: Allocator>(
    waiting: &mut Waiting<A>,
    list: &mut Vec<u32, A>,
    now: u64,
    until: u64,
) -> Result<u64, OutOfMemory> {
    let mut now = now;
    for _ in 0..waiting.len() {
        let Some(Reverse((left, job))) = waiting.pop() else {
            break;
        };
        let room = until.saturating_sub(now);
        if room < left {
            waiting.push(Reverse((left - room, job)))?;
            break;
        }
        now = now.wrapping_add(left);
        list.push(job)?;
    }
    Ok(now.max(until))
}
