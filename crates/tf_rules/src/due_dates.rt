//! Few late jobs: Moore and Hodgson's rule.
use std::alloc::Allocator;
use std::collections::BinaryHeap;
use tf_decode::table::TaskTable;
use tf_model::memory::OutOfMemory;

// What ratios are written over.
const SCALE: u128 = 1_000_000;

/// The jobs by due dates, and behind them those that are late: where a job completes too late, that
/// one of those before it goes which takes most for its weight (Moore 1968). On several machines
/// each has an equal share of the work.
pub(crate) fn few_late<A: Allocator + Copy, B: Allocator>(
    alloc: A,
    table: &TaskTable<B>,
) -> Result<Vec<u32, A>, OutOfMemory> {
    let order = by_due_date(alloc, table)?;
    let late = late_jobs(alloc, table, &order)?;
    let mut list = Vec::with_capacity(alloc, order.len())?;
    for wanted in [false, true] {
        for job in &order {
            if late.get(*job as usize).copied().unwrap_or(false) == wanted {
                list.push(*job)?;
            }
        }
    }
    Ok(list)
}

// The jobs by due dates, by release dates among equals.
fn by_due_date<A: Allocator + Copy, B: Allocator>(
    alloc: A,
    table: &TaskTable<B>,
) -> Result<Vec<u32, A>, OutOfMemory> {
    let mut keys = Vec::with_capacity(alloc, table.jobs.len())?;
    for (job, numbers) in table.jobs.iter().enumerate() {
        let number = u32::try_from(job).unwrap_or(u32::MAX);
        keys.push((numbers.due, numbers.release, number))?;
    }
    keys.sort_unstable();
    let mut order = Vec::with_capacity(alloc, keys.len())?;
    for key in &keys {
        order.push(key.2)?;
    }
    Ok(order)
}

// Which jobs are late.
fn late_jobs<A: Allocator + Copy, B: Allocator>(
    alloc: A,
    table: &TaskTable<B>,
    order: &[u32],
) -> Result<Vec<bool, A>, OutOfMemory> {
    let machines = table.machines as u128;
    let mut late = vec![in alloc; false; table.jobs.len()]?;
    let mut kept = BinaryHeap::with_capacity(alloc, order.len())?;
    let mut now: u128 = 0;
    for job in order {
        let numbers = table.job(*job as usize);
        let ratio = u128::from(numbers.work).wrapping_mul(SCALE)
            / u128::from(numbers.weight).max(1);
        kept.push((ratio, *job))?;
        now = now.max(u128::from(numbers.release).wrapping_mul(machines));
        now = now.wrapping_add(u128::from(numbers.work));
        let due = u128::try_from(numbers.due)
            .unwrap_or(0)
            .wrapping_mul(machines);
        if now > due {
            if let Some((_, gone)) = kept.pop() {
                now = now.saturating_sub(u128::from(table.job(gone as usize).work));
                if let Some(entry) = late.get_mut(gone as usize) {
                    *entry = true;
                }
            }
        }
    }
    Ok(late)
}
